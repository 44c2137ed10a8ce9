//! Tests of `lua_machine`: runs the Lua texts of the input, each with a host of few functions, and prints how each ends and
//! what it used. A text stands behind a line that begins with `-- next` and says what it shows; two numbers right behind
//! these words are its limits, of instructions and of bytes. The texts are input, and no literals of tests, since a proof
//! about a literal works out its bytes.
#![tactic(auto)]

mod laws;
mod printed;
mod running;
mod text;

use printed::put_line;
use running::put_run;
use std::alloc::{AllocError, Global};
use std::io::{self, Write};
use std::marker::Brand;
use std::sync::ledger::Blank;
use text::Text;

/// The title of a text, and how its run ends.
fn put_answer(alloc: Global, out: &mut Vec<u8>, text: Text) -> Result<(), AllocError> {
    out.extend_from_slice(text.title.as_slice())?;
    out.extend_from_slice(b": ")?;
    put_run::<Brand>(alloc, out, text, Blank::new(1))?;
    put_line(out)
}

fn main(rt: HostRuntime) -> io::Result<()> {
    let alloc = rt.alloc();
    let mut out = Vec::new(alloc);
    let mut text = Text::new(alloc);
    let mut begun = false;
    for line in rt.lines(alloc) {
        let line = line?;
        if line.as_str().starts_with("-- next") {
            if begun {
                put_answer(alloc, &mut out, text)?;
            }
            begun = true;
            text = Text::begun(alloc, line.as_str())?;
        } else {
            text.push_line(line.as_str())?;
        }
    }
    put_answer(alloc, &mut out, text)?;
    rt.stdout().write_all(out.as_slice())
}
