//! Texts from words to the stored pixel, and what is said of texts that are refused.

use crate::fixture::{HALF, HALF_PIXEL, PIXEL, WORDS, dpx, ends, given, refused, stores_pixel};
use ctl_base::Memory;
use std::alloc::Global;

/// The head of an entry.
const MAIN: &str =
    "void main(input varying float rIn, input varying float gIn, input varying float bIn, output varying float rOut, output varying float gOut, output varying float bOut)";

/// Three parts of a text, and the word that is stored.
type Text = ([&'static str; 3], u32);

static TEXTS: [Text; 11] = [
    (
        ["", MAIN, " { rOut = rIn + gIn - 0.25; bOut = bIn * bIn; }"],
        0xBFC0_0400,
    ),
    (["", MAIN, " { }"], 0),
    (["", MAIN, "{rOut=1.0;rOut=0.5;}"], 0x8000_0000),
    (
        [
            "",
            MAIN,
            " { rOut = rIn * 0.5; /* half */ gOut = gIn * 0.5; bOut = bIn * 0.5; }\n",
        ],
        HALF_PIXEL,
    ),
    (["", MAIN, " { rOut = rIn * 0.5f; }"], 0x8000_0000),
    (["", MAIN, " { rOut = rIn * 1; }"], 0xFFC0_0000),
    (["", MAIN, " { rOut = (rIn); }"], 0xFFC0_0000),
    (["", MAIN, " { ; }"], 0),
    // Comments change nothing.
    (["// half\n", HALF, ""], HALF_PIXEL),
    (["", HALF, "/* void main( @ \" */"], HALF_PIXEL),
    (["/**//*//*/", HALF, "// */ @"], HALF_PIXEL),
];

#[test]
fn texts_give_their_pixel(rt: HostRuntime) -> Result<(), Memory> {
    for (parts, pixel) in TEXTS.iter().copied() {
        let [before, text, after] = parts;
        let text = format!(in rt.alloc(); "{before}{text}{after}")?;
        assert!(rt; gives(rt.alloc(), text.as_bytes(), pixel)?, "{text}");
    }
    Ok(())
}

// Whether the text stores that word for the source of one pixel.
fn gives(alloc: Global, text: &[u8], pixel: u32) -> Result<bool, Memory> {
    let source = dpx(alloc, 1, 1, &[PIXEL])?;
    stores_pixel(alloc, text, &source, pixel)
}

// Whether the text is refused with this line, before the source is asked for, and the files stay.
fn is_refused(
    alloc: Global,
    text: &[u8],
    source: &[u8],
    code: u8,
    line: &str,
) -> Result<bool, Memory> {
    let held = [("half.ctl", text), ("in.dpx", source)];
    ends(alloc, &given(&held, &WORDS), &refused(code, line, 2))
}

/// A text, the number that the program ends with, and the line that is said.
type Refused = (&'static [u8], u8, &'static str);

/// Modules without an entry that is built.
static LATER: [Refused; 5] = [
    (b"", 13, "not built yet"),
    (b"// nothing\n", 13, "not built yet"),
    (b"const float a = 1.0;", 13, "not built yet"),
    (b"struct Pair { float a; float b; };", 13, "not built yet"),
    (b"void main() { }", 13, "not built yet"),
];

static FAULTS_OF_BYTES: [Refused; 12] = [
    (b"void\nmain\n@", 5, "half.ctl line 3: NoToken"),
    (b"void main() { # }", 5, "half.ctl line 1: NoToken"),
    (b"// half\n\n\x00", 5, "half.ctl line 3: NoToken"),
    (b"\n/* half\n", 5, "half.ctl line 2: OpenComment"),
    (b"/* half *", 5, "half.ctl line 1: OpenComment"),
    (b"import \"half\n\";", 5, "half.ctl line 1: OpenText"),
    (b"import\n\"half\\\"", 5, "half.ctl line 2: OpenText"),
    (b"const float a =\n1.2.3;", 5, "half.ctl line 2: Literal"),
    (b"const int a = 0x;", 5, "half.ctl line 1: Literal"),
    (b"\r\n\r\n\r\n\xc3\xa9", 5, "half.ctl line 4: NotAscii"),
    // The bytes are looked at before the grammar.
    (b"void main( { }\n@", 5, "half.ctl line 2: NoToken"),
    (b"; \xff", 5, "half.ctl line 1: NotAscii"),
];

static FAULTS_OF_GRAMMAR: [Refused; 7] = [
    (b"void main( { }", 5, "half.ctl line 1: NotHere"),
    (
        b"void main()\n{\nint a = ;\n}",
        5,
        "half.ctl line 3: NotHere",
    ),
    (b"/*\n*/ rOut = rIn;", 5, "half.ctl line 2: NotHere"),
    (b"ctlversion\n2;", 5, "half.ctl line 2: NotHere"),
    (b"const float a = 1.0; }", 5, "half.ctl line 1: NotHere"),
    // at the end of the text
    (b"void main()\n{\n", 5, "half.ctl line 3: NotHere"),
    (b"void main()\n{ // }", 5, "half.ctl line 2: NotHere"),
];

#[test]
fn each_text_is_refused_before_the_source_is_asked_for(rt: HostRuntime) -> Result<(), Memory> {
    let tables: [&'static [Refused]; 3] = [&LATER, &FAULTS_OF_BYTES, &FAULTS_OF_GRAMMAR];
    for (table, texts) in tables.into_iter().enumerate() {
        for (place, text) in texts.iter().enumerate() {
            assert!(rt;
                is_refused_alone(rt.alloc(), text)?,
                "table {table}, text {place}"
            );
        }
    }
    Ok(())
}

// Whether the text is refused where the source is absent.
fn is_refused_alone(alloc: Global, text: &Refused) -> Result<bool, Memory> {
    let (text, code, line) = *text;
    let held = [("half.ctl", text), ("in.dpx", b"".as_slice())];
    let words = ["-ctl", "half.ctl", "other.dpx", "out.dpx"];
    ends(alloc, &given(&held, &words), &refused(code, line, 2))
}

/// What stands in 200 brackets is nested 200 deep, and in 201 too deeply.
static NESTED: [(u32, u8, &str); 2] = [
    (200, 13, "not built yet"),
    (201, 5, "half.ctl line 12: Depth"),
];

#[test]
fn brackets_are_nested_up_to_the_limit(rt: HostRuntime) -> Result<(), Memory> {
    for (depth, code, line) in NESTED.iter().copied() {
        let text = nested(rt.alloc(), depth)?;
        assert!(rt;
            is_refused(rt.alloc(), &text, b"", code, line)?,
            "depth {depth}"
        );
    }
    Ok(())
}

// A number in so many brackets, in line 12.
fn nested(alloc: Global, depth: u32) -> Result<Vec<u8>, Memory> {
    let mut text = Vec::from_slice(alloc, b"\n\n\n\n\n\n\n\n\n\n\nconst float a = ")?;
    fill(&mut text, b'(', depth)?;
    text.extend_from_slice(b"1.0")?;
    fill(&mut text, b')', depth)?;
    text.push(b';')?;
    Ok(text)
}

#[test]
fn a_text_has_at_most_2_to_24_bytes(rt: HostRuntime) -> Result<(), Memory> {
    let mut text = Vec::from_slice(rt.alloc(), HALF.as_bytes())?;
    fill(&mut text, b' ', (1 << 24) - HALF.len() as u32)?;
    assert!(rt; gives(rt.alloc(), &text, HALF_PIXEL)?);
    text.push(b' ')?;
    assert!(rt; is_too_long(rt.alloc(), &text)?);
    Ok(())
}

fn is_too_long(alloc: Global, text: &[u8]) -> Result<bool, Memory> {
    let source = dpx(alloc, 1, 1, &[PIXEL])?;
    is_refused(alloc, text, &source, 5, "half.ctl line 0: TooLong")
}

fn fill(text: &mut Vec<u8>, byte: u8, count: u32) -> Result<(), Memory> {
    for _ in 0..count {
        text.push(byte)?;
    }
    Ok(())
}
