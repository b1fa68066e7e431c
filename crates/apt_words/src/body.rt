//! Statements of part programs.

ghost use Rattle.std.specs.Prelude.{◌≡◌, IfOk};
ghost use Rattle.apt_words.specs.Composition.{is_fini};

use crate::{Contouring, Cool, Expr, Pick, Side, Stop, Symbol, Turn, Units};
use std::alloc::{AllocError, Global};
use std::marker::Model;

/// The text of PARTNO or REMARK. Clauses see its bytes.
#[derive(Drop)]
pub struct Text {
    pub bytes: Vec<u8>,
}

impl Model for Text {
    ghost use Rattle.std.specs.Prelude.{ℕ, List};

    ghost Value = { List ℕ };

    ghost view = { λ t. t.bytes.items };
}

impl Text {
    pub fn copied(&self) -> Result<Text, AllocError>
        ensures { IfOk result (λ copy. copy ≡ self.now) }
    {
        let bytes = self.bytes.clone()?;
        Ok(Text { bytes })
    }
}

/// The list of MACHIN.
#[derive(Drop)]
pub struct Exprs {
    pub items: Vec<Expr>,
}

impl Model for Exprs {
    ghost use Rattle.std.specs.Prelude.{List};
    ghost use Rattle.std.specs.Coded.{coded_list};
    ghost use Rattle.apt_words.specs.Trees.{Tree};
    ghost use Rattle.apt_words.specs.TreeCodes.{tree_code};

    ghost Value = { List Tree };

    ghost coded = { coded_list tree_code };

    ghost view = { λ e. e.items.items };
}

/// The parameters of a MACRO, each with its default where it has one.
#[derive(Drop)]
pub struct Params {
    pub items: Vec<(Symbol, Option<Expr>)>,
}

impl Model for Params {
    ghost use Rattle.std.specs.Prelude.{ℕ, List, Option};
    ghost use Rattle.std.specs.Coded.{coded_list, coded×, coded_ℕ, coded_option};
    ghost use Rattle.apt_words.specs.Trees.{Tree};
    ghost use Rattle.apt_words.specs.TreeCodes.{tree_code};

    ghost Value = { List (List ℕ × Option Tree) };

    ghost coded = { coded_list (coded× (coded_list coded_ℕ) (coded_option tree_code)) };

    ghost view = { λ p. p.items.items };
}

/// The arguments of a CALL.
#[derive(Drop)]
pub struct Args {
    pub items: Vec<(Symbol, Expr)>,
}

impl Model for Args {
    ghost use Rattle.std.specs.Prelude.{ℕ, List};
    ghost use Rattle.std.specs.Coded.{coded_list, coded×, coded_ℕ};
    ghost use Rattle.apt_words.specs.Trees.{Tree};
    ghost use Rattle.apt_words.specs.TreeCodes.{tree_code};

    ghost Value = { List (List ℕ × Tree) };

    ghost coded = { coded_list (coded× (coded_list coded_ℕ) tree_code) };

    ghost view = { λ a. a.items.items };
}

/// The coordinates of a point, apart from their statement, so that no other statement is larger for them. Clauses see
/// the two.
#[derive(Drop)]
pub struct Xy {
    at: Box<(Expr, Expr)>,
}

impl Model for Xy {
    ghost use Rattle.std.specs.Coded.{coded×};
    ghost use Rattle.apt_words.specs.Trees.{Tree};
    ghost use Rattle.apt_words.specs.TreeCodes.{tree_code};

    ghost Value = { Tree × Tree };

    ghost coded = { coded× tree_code tree_code };

    ghost view = { λ p. p.at.value };
}

impl Xy {
    pub fn new(alloc: Global, x: Expr, y: Expr) -> Result<Xy, AllocError>
        ensures { IfOk result (λ p. p ≡ (x, y)) }
    {
        let at = Box::new(alloc, (x, y))?;
        Ok(Xy { at })
    }

    pub fn x(&self) -> &Expr
        ensures { result.now ≡ self.now.0 }
    {
        &self.at.0
    }

    pub fn y(&self) -> &Expr
        ensures { result.now ≡ self.now.1 }
    {
        &self.at.1
    }
}

/// What a statement says: its words' arguments in order, a defined name first.
///
/// A bool is true for LEFT. A stop that is left out is `To`, and a turn of the spindle `Cw`.
#[derive(Drop)]
pub enum Body {
    /// `PARTNO` and the text behind it.
    Partno(Text),
    /// `REMARK` and the text behind it.
    Remark(Text),
    /// `UNITS/INCHES` or `UNITS/MM`.
    Units(Units),
    /// `CLPRNT`.
    Clprnt,
    /// `NOPOST`.
    Nopost,
    /// `MACHIN/` and its list.
    Machin(Exprs),
    /// `n=e`.
    Assign(Symbol, Expr),
    /// `n=POINT/x,y` or `n=POINT/x,y,z`.
    PointXy(Symbol, Expr, Expr, Option<Expr>),
    /// `n=POINT/INTOF,l,l`.
    PointLines(Symbol, Symbol, Symbol),
    /// `n=POINT/k,INTOF,s,s`.
    PointPick(Symbol, Pick, Symbol, Symbol),
    /// `n=POINT/CENTER,c`.
    PointCenter(Symbol, Symbol),
    /// `n=LINE/x,y,x,y`.
    LineXy(Symbol, Expr, Expr, Xy),
    /// `n=LINE/p,p`.
    LinePoints(Symbol, Symbol, Symbol),
    /// `n=LINE/p,PARLEL,l`.
    LinePar(Symbol, Symbol, Symbol),
    /// `n=LINE/p,PERPTO,l`.
    LinePerp(Symbol, Symbol, Symbol),
    /// `n=LINE/PARLEL,l,k,e`.
    LineAt(Symbol, Symbol, Pick, Expr),
    /// `n=LINE/p,h,TANTO,c`.
    LineTan(Symbol, Symbol, bool, Symbol),
    /// `n=LINE/h,TANTO,c,h,TANTO,c`.
    LineTwo(Symbol, bool, Symbol, bool, Symbol),
    /// `n=CIRCLE/e,e,e`, of numbers or of points.
    CircleThree(Symbol, Expr, Expr, Expr),
    /// `n=CIRCLE/CENTER,p,RADIUS,e`.
    CircleRadius(Symbol, Symbol, Expr),
    /// `n=CIRCLE/CENTER,p,TANTO,l`.
    CircleTan(Symbol, Symbol, Symbol),
    /// `n=CIRCLE/CENTER,p,p`.
    CircleThrough(Symbol, Symbol, Symbol),
    /// `n=CIRCLE/k,l,k,l,RADIUS,e`.
    CircleCorner(Symbol, Pick, Symbol, Pick, Symbol, Expr),
    /// `CUTTER/e`.
    Cutter(Expr),
    /// `INTOL/e`.
    Intol(Expr),
    /// `OUTTOL/e`.
    Outtol(Expr),
    /// `TLLFT`, `TLRGT` or `TLON`.
    Tool(Side),
    /// `FROM/x,y` or `FROM/x,y,z`.
    FromXy(Expr, Expr, Option<Expr>),
    /// `FROM/p`.
    FromPoint(Symbol),
    /// `GOTO/x,y` or `GOTO/x,y,z`.
    GotoXy(Expr, Expr, Option<Expr>),
    /// `GOTO/p`.
    GotoPoint(Symbol),
    /// `GODLTA/x,y,z`.
    Godlta(Expr, Expr, Expr),
    /// `GO/q,s` or `GO/q,s,q,s`.
    GoStart(Stop, Symbol, Option<(Stop, Symbol)>),
    /// `GOLFT/s,q,e,INTOF,s`, `GORGT`, `GOFWD` or `GOBACK`, behind a side or not. A count that is left out is the number 1.
    Contour(Contouring, Expr),
    /// `RAPID`.
    Rapid,
    /// `STOP`.
    Halt,
    /// `OPSTOP`.
    OptHalt,
    /// `END`.
    EndWord,
    /// `FINI`.
    Fini,
    /// `FEDRAT/e`.
    Fedrat(Expr),
    /// `SPINDL/e` with `CLW` or `CCLW`.
    Spindl(Expr, Turn),
    /// `SPINDL/OFF`.
    SpindlOff,
    /// `COOLNT/` with `MIST`, `FLOOD` or `OFF`.
    Coolnt(Cool),
    /// `LOADTL/e`.
    Loadtl(Expr),
    /// `n=PATERN/LINEAR,p,p,e`.
    Patern(Symbol, Symbol, Symbol, Expr),
    /// `CYCLE/DRILL,e,e`.
    CycleDrill(Expr, Expr),
    /// `CYCLE/OFF`.
    CycleOff,
    /// `m=MACRO` and its parameters.
    Macro(Symbol, Params),
    /// `TERMAC`.
    Termac,
    /// `CALL/m` and its arguments.
    Call(Symbol, Args),
    /// `LOOPST`.
    Loopst,
    /// `LOOPND`.
    Loopnd,
    /// `JUMPTO/label`.
    Jumpto(Symbol),
    /// `IF (e) label,label,label`.
    If(Expr, Symbol, Symbol, Symbol),
}

impl Body {
    /// Whether the statement ends the program.
    pub fn is_fini(&self) -> bool
        ensures { result ≡ is_fini self.now }
    {
        matches!(self, Body::Fini)
    }
}

/// A statement, and the line on which it begins, from 1.
#[derive(Drop)]
pub struct Stmt {
    pub line: u32,
    pub label: Option<Symbol>,
    pub body: Body,
}

/// A part program. Clauses see the list of its statements.
#[derive(Drop)]
pub struct Program {
    pub stmts: Vec<Stmt>,
}

impl Model for Program {
    ghost use Rattle.std.specs.Prelude.{List};
    ghost use Rattle.std.specs.Coded.{coded_list};
    ghost use Rattle.apt_words.specs.declared.body.Stmt.{Stmt};
    ghost use Rattle.apt_words.specs.contracts.body.Stmt as stmt;

    ghost Value = { List Stmt };

    ghost coded = { coded_list stmt.the_row.coded };

    ghost view = { λ p. p.stmts.items };
}
