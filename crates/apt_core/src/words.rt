//! The words of the command line.

ghost use Rattle.std.specs.Prelude.{◌≡◌, option_map, IfSome};
ghost use Rattle.apt_core.specs.Words as words;
ghost use Rattle.apt_core.specs.Words.{work_in, texts};
ghost use Rattle.apt_core.specs.Request.{work_of, four_names, tape_names, IsSound};

use apt_machine::number_within;

/// The most circles of `demo`.
const MOST_CIRCLES: u16 = 800;

/// The names PART, MACHINE, CL and TAPE.
#[derive(Clone, Copy)]
pub(crate) struct Names<'a> {
    pub part: &'a str,
    pub machine: &'a str,
    pub cl: &'a str,
    pub tape: &'a str,
}

/// The names MACHINE and TAPE.
#[derive(Clone, Copy)]
pub(crate) struct TapeNames<'a> {
    pub machine: &'a str,
    pub tape: &'a str,
}

/// A command with its names.
#[derive(Clone, Copy)]
pub(crate) enum Request<'a> {
    Compile(Names<'a>),
    Certify(Names<'a>),
    Decode(TapeNames<'a>),
    List(&'a str),
    Demo(u32),
    Guard(Names<'a>, &'a str),
}

/// The command that the words ask for.
pub(crate) fn request_of<'a>(words: &'a [String]) -> Option<Request<'a>>
    ensures work { option_map work_of result ≡ work_in (texts words.now) }
    ensures sound { IfSome result IsSound }
{
    match words {
        [word, part, machine, cl, tape] => command_request(
            word,
            Names {
                part,
                machine,
                cl,
                tape,
            },
        ),
        [word, part, machine, cl, tape, outline] => guard_request(
            word,
            Names {
                part,
                machine,
                cl,
                tape,
            },
            outline,
        ),
        [word, machine, tape] => decode_request(word, TapeNames { machine, tape }),
        [word, text] => word_request(word, text),
        _ => None,
    }
}

fn command_request<'a>(word: &str, names: Names<'a>) -> Option<Request<'a>>
    ensures work { option_map work_of result ≡ words.command_work word.now (four_names names.entry) }
    ensures sound { IfSome result IsSound }
{
    if word == "compile" {
        compile_request(names)
    } else if word == "certify" {
        certify_request(names)
    } else {
        None
    }
}

#[tactic(auto, using(crate::proofs::Apart::outputs_differ))]
fn compile_request<'a>(names: Names<'a>) -> Option<Request<'a>>
    ensures work { option_map work_of result ≡ words.compile_work (four_names names.entry) }
    ensures sound { IfSome result IsSound }
{
    if are_names(&names) && are_apart(&names) {
        Some(Request::Compile(names))
    } else {
        None
    }
}

fn certify_request<'a>(names: Names<'a>) -> Option<Request<'a>>
    ensures work { option_map work_of result ≡ words.certify_work (four_names names.entry) }
    ensures sound { IfSome result IsSound }
{
    if are_names(&names) {
        Some(Request::Certify(names))
    } else {
        None
    }
}

fn guard_request<'a>(word: &str, names: Names<'a>, outline: &'a str) -> Option<Request<'a>>
    ensures work { option_map work_of result ≡ words.guard_work word.now (four_names names.entry) outline.now }
    ensures sound { IfSome result IsSound }
{
    if word == "guard" && are_names(&names) && !outline.is_empty() {
        Some(Request::Guard(names, outline))
    } else {
        None
    }
}

fn decode_request<'a>(word: &str, names: TapeNames<'a>) -> Option<Request<'a>>
    ensures work { option_map work_of result ≡ words.decode_work word.now (tape_names names.entry) }
    ensures sound { IfSome result IsSound }
{
    if word == "decode" && are_tape_names(&names) {
        Some(Request::Decode(names))
    } else {
        None
    }
}

fn word_request<'a>(word: &str, text: &'a str) -> Option<Request<'a>>
    ensures work { option_map work_of result ≡ words.word_work word.now text.now }
    ensures sound { IfSome result IsSound }
{
    if word == "list" {
        list_request(text)
    } else if word == "demo" {
        demo_request(text)
    } else {
        None
    }
}

fn list_request<'a>(name: &'a str) -> Option<Request<'a>>
    ensures work { option_map work_of result ≡ words.list_work name.now }
    ensures sound { IfSome result IsSound }
{
    if name.is_empty() {
        None
    } else {
        Some(Request::List(name))
    }
}

fn demo_request<'a>(text: &str) -> Option<Request<'a>>
    ensures work { option_map work_of result ≡ words.demo_work text.now }
    ensures sound { IfSome result IsSound }
{
    let n = number_within(1, MOST_CIRCLES, text.as_bytes())?;
    Some(Request::Demo(u32::from(n)))
}

fn are_names(n: &Names<'_>) -> bool
    ensures { result ≡ words.are_names (four_names n.now) }
{
    !n.part.is_empty() && !n.machine.is_empty() && !n.cl.is_empty() && !n.tape.is_empty()
}

fn are_tape_names(n: &TapeNames<'_>) -> bool
    ensures { result ≡ words.are_tape_names (tape_names n.now) }
{
    !n.machine.is_empty() && !n.tape.is_empty()
}

fn are_apart(n: &Names<'_>) -> bool
    ensures { result ≡ words.are_apart (four_names n.now) }
{
    n.cl != n.part && n.cl != n.machine && n.cl != n.tape && n.tape != n.part && n.tape != n.machine
}
