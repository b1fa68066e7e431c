//! Executed statements.
use crate::{Command, Contouring, Pick, Side, Stop, Symbol, Text, Units};

/// What a step does: a statement's words, with a value in millionths in place of each expression, and
/// for a parameter of a macro what it stands for.
#[derive(Drop)]
pub enum Deed {
    /// `PARTNO` and the text behind it.
    Partno(Text),
    /// `REMARK` and the text behind it.
    Remark(Text),
    /// `UNITS/INCHES` or `UNITS/MM`.
    Units(Units),
    /// `CLPRNT`.
    Clprnt,
    /// `NOPOST`.
    Nopost,
    /// `MACHIN/` and its list.
    Machin,
    /// `n=e`.
    Assign(Symbol, i64),
    /// `n=POINT/x,y` or `n=POINT/x,y,z`.
    PointXy(Symbol, i64, i64, Option<i64>),
    /// `n=POINT/INTOF,l,l`.
    PointLines(Symbol, Symbol, Symbol),
    /// `n=POINT/k,INTOF,s,s`.
    PointPick(Symbol, Pick, Symbol, Symbol),
    /// `n=POINT/CENTER,c`.
    PointCenter(Symbol, Symbol),
    /// `n=LINE/x,y,x,y`.
    LineXy(Symbol, i64, i64, i64, i64),
    /// `n=LINE/p,p`.
    LinePoints(Symbol, Symbol, Symbol),
    /// `n=LINE/p,PARLEL,l`.
    LinePar(Symbol, Symbol, Symbol),
    /// `n=LINE/p,PERPTO,l`.
    LinePerp(Symbol, Symbol, Symbol),
    /// `n=LINE/PARLEL,l,k,e`.
    LineAt(Symbol, Symbol, Pick, i64),
    /// `n=LINE/p,h,TANTO,c`.
    LineTan(Symbol, Symbol, bool, Symbol),
    /// `n=LINE/h,TANTO,c,h,TANTO,c`.
    LineTwo(Symbol, bool, Symbol, bool, Symbol),
    /// `n=CIRCLE/x,y,r`.
    CircleXyr(Symbol, i64, i64, i64),
    /// `n=CIRCLE/p,p,p`.
    CirclePoints(Symbol, Symbol, Symbol, Symbol),
    /// `n=CIRCLE/CENTER,p,RADIUS,e`.
    CircleRadius(Symbol, Symbol, i64),
    /// `n=CIRCLE/CENTER,p,TANTO,l`.
    CircleTan(Symbol, Symbol, Symbol),
    /// `n=CIRCLE/CENTER,p,p`.
    CircleThrough(Symbol, Symbol, Symbol),
    /// `n=CIRCLE/k,l,k,l,RADIUS,e`.
    CircleCorner(Symbol, Pick, Symbol, Pick, Symbol, i64),
    /// `CUTTER/e`.
    Cutter(i64),
    /// `INTOL/e`.
    Intol(i64),
    /// `OUTTOL/e`.
    Outtol(i64),
    /// `TLLFT`, `TLRGT` or `TLON`.
    Tool(Side),
    /// `FROM/x,y` or `FROM/x,y,z`.
    FromXy(i64, i64, Option<i64>),
    /// `FROM/p`.
    FromPoint(Symbol),
    /// `GOTO/x,y` or `GOTO/x,y,z`.
    GotoXy(i64, i64, Option<i64>),
    /// `GOTO/p`.
    GotoPoint(Symbol),
    /// `GODLTA/x,y,z`.
    Godlta(i64, i64, i64),
    /// `GO/q,s` or `GO/q,s,q,s`.
    GoStart(Stop, Symbol, Option<(Stop, Symbol)>),
    /// `GOLFT/s,q,e,INTOF,s`, `GORGT`, `GOFWD` or `GOBACK`, behind a side or not.
    Contour(Contouring, i64),
    /// `RAPID`.
    Rapid,
    /// `END`.
    EndWord,
    /// `FINI`.
    Fini,
    /// `FEDRAT/e`.
    Fedrat(i64),
    /// `SPINDL`, `COOLNT`, `LOADTL`, `STOP` or `OPSTOP`.
    Do(Command),
    /// `n=PATERN/LINEAR,p,p,e`.
    Patern(Symbol, Symbol, Symbol, i64),
    /// `CYCLE/DRILL,e,e`.
    CycleDrill(i64, i64),
    /// `CYCLE/OFF`.
    CycleOff,
    /// `GOTO/n` where the name stands for a pattern.
    GotoPatern(Symbol),
    /// `m=MACRO` and its parameters.
    Macro,
    /// `TERMAC`.
    Termac,
    /// `CALL/m` and its arguments.
    Call,
    /// `LOOPST`.
    Loopst,
    /// `LOOPND`.
    Loopnd,
    /// `JUMPTO/label`.
    Jumpto,
    /// `IF (e) label,label,label`.
    If,
}

/// An executed statement: its line and its number, both from 1.
#[derive(Drop)]
pub struct Step {
    pub line: u32,
    pub step: u32,
    pub deed: Deed,
}
