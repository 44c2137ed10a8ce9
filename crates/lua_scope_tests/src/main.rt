//! Tests of `lua_scope` by its public surface: prints what the names of the texts of the input mean, or how a text is
//! refused. A text stands behind a line that begins with `#` and says what it shows. The texts are input, and no literals
//! of tests, since a proof about a literal works out its bytes.
#![tactic(auto)]

mod printed;

use lua_scope::load;
use printed::{put, put_program, put_text};
use std::alloc::{AllocError, Global};
use std::io::{self, Write};

/// A text of the input, line by line.
#[derive(Drop)]
struct Text {
    bytes: Vec<u8>,
    lines: usize,
}

impl Text {
    fn new(alloc: Global) -> Text {
        Text {
            bytes: Vec::new(alloc),
            lines: 0,
        }
    }

    fn push_line(&mut self, line: &str) -> Result<(), AllocError> {
        if self.lines > 0 {
            self.bytes.push(b'\n')?;
        }
        self.lines = self.lines.saturating_add(1);
        self.bytes.extend_from_slice(line.as_bytes())?;
        Ok(())
    }
}

/// What loading a text comes to.
fn put_answer(alloc: Global, out: &mut Vec<u8>, text: Vec<u8>) -> Result<(), AllocError> {
    match load(alloc, text) {
        Ok(parsed) => put_program(alloc, out, &parsed)?,
        Err(error) => {
            let told = format!(in alloc; "refused: {error:?}")?;
            put(out, told.as_str())?;
        }
    }
    out.push(b'\n')?;
    Ok(())
}

/// A byte so many times.
fn put_times(text: &mut Vec<u8>, byte: u8, times: usize) -> Result<(), AllocError> {
    for _ in 0..times {
        text.push(byte)?;
    }
    Ok(())
}

/// So many blanks.
fn blanks(alloc: Global, count: usize) -> Result<Vec<u8>, AllocError> {
    let mut text = Vec::new(alloc);
    put_times(&mut text, b' ', count)?;
    Ok(text)
}

/// `return` and a 1 in so many parentheses.
fn nested(alloc: Global, levels: usize) -> Result<Vec<u8>, AllocError> {
    let mut text = b"return ".to_vec(alloc)?;
    put_times(&mut text, b'(', levels)?;
    text.push(b'1')?;
    put_times(&mut text, b')', levels)?;
    Ok(text)
}

/// Texts at the greatest length and depth, and one more.
fn put_limits(alloc: Global, out: &mut Vec<u8>) -> Result<(), AllocError> {
    for count in 1_048_576..1_048_578_usize {
        let title = format!(in alloc; "# {count} blanks\n")?;
        put(out, title.as_str())?;
        put_answer(alloc, out, blanks(alloc, count)?)?;
    }
    for levels in 200..202_usize {
        let title = format!(in alloc; "# {levels} levels\n")?;
        put(out, title.as_str())?;
        put_answer(alloc, out, nested(alloc, levels)?)?;
    }
    Ok(())
}

fn main(rt: HostRuntime) -> io::Result<()> {
    let alloc = rt.alloc();
    let mut out = Vec::new(alloc);
    let mut text = Text::new(alloc);
    let mut begun = false;
    for line in rt.lines(alloc) {
        let line = line?;
        if line.as_str().starts_with('#') {
            if begun {
                put_answer(alloc, &mut out, text.bytes)?;
            }
            begun = true;
            text = Text::new(alloc);
            put_text(&mut out, line.as_bytes())?;
        } else {
            text.push_line(line.as_str())?;
        }
    }
    put_answer(alloc, &mut out, text.bytes)?;
    put_limits(alloc, &mut out)?;
    rt.stdout().write_all(out.as_slice())
}
