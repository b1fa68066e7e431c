use apt_words::{Case, Symbol};

const TEXTS: [(&str, bool, bool); 15] = [
    ("L1", true, true),
    ("X", true, true),
    ("ABCDEF", true, true),
    ("A12345", true, true),
    ("LINE", true, false),
    ("PARTNO", true, false),
    ("ABSF", true, false),
    ("TO", true, false),
    ("ABCDEFG", false, false),
    ("1L", false, false),
    ("l1", false, false),
    ("A B", false, false),
    ("A-1", false, false),
    ("É", false, false),
    ("", false, false),
];

#[test]
fn tells_symbols_and_names(rt: HostRuntime) {
    'texts: for &(text, is_symbol, is_name) in &TEXTS {
        let found = [
            Symbol::new(text).is_some(),
            Symbol::name(text.as_bytes()).is_some(),
        ];
        assert_eq!(rt; found, [is_symbol, is_name], "at {text}");
    }
}

/// No step is refused so today.
#[test]
fn names_the_case_of_no_step(rt: HostRuntime) {
    assert_eq!(rt; Case::TooManyHoles.name(), "TooManyHoles");
}
