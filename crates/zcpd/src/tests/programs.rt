//! Checks of channel programs: texts that load, and the refusals that other tests leave out.

use super::run;
use std::alloc::{AllocError, Global};
use std::test::Fail;
use zc_offline::Status;

/// Every kind of statement and of expression (Lua 5.2 manual, section 9).
const LOADING: &str = r#"{
  "pool": "rpool",
  "now": 0,
  "setup": [],
  "programs": {
    "empty": "",
    "assignments": "local a local b, c = 1, 2 a, b, c.d = b, a",
    "calls": "f() a.b:c(1, 2) f'text' f{1} f[[text]] a.b():c'text'",
    "blocks": "do local x = 1 end ; do ; end",
    "loops": "while a do b() end repeat local c until c for i = 1, 2 do end for i = 1, 2, 3 do end for k in f do end for k, v in pairs(t), a do end",
    "branches": "if a then b() end if a then elseif b then c() elseif d then else e() end",
    "functions": "function f() end function a.b.c(x) end function a.b:c(x, ...) return self, x, ... end local function g(...) return g, ... end",
    "jumps": "goto done while a do break end for i = 1, 2 do if i then goto continue end local x = i ::continue:: end ::done::",
    "returns": "return;",
    "values": "return nil, true, false, 7, 0x1f, 'a', \"b\", [[c]], [=[]]]=], ..., function(a, ...) end",
    "escapes": "return '\\a\\b\\f\\n\\r\\t\\v\\\\\\\"\\'\\\n\\z\n  \\x41\\65\\065'",
    "indices": "return a.b, a[b], a.b[1].c, a['b'](1).c, (a).b, (...)",
    "tables": "return {}, {1, 2; 3}, {a = 1, [2] = b, c}, {f(), [[d]],}",
    "operators": "return -a, not a, #a, - - a, a + b - c * d / e % f ^ g, a .. b .. c, a < b == (c <= d), a > b ~= (c >= d), a and b or not c",
    "comments": "-- a line\n--[[ some\nlines ]] a = 1 --[==[ ]] ]==]\n-- the end"
  },
  "sessions": []
}"#;

const LOADING_OUTPUT: &str =
    r#"{"programs":{"assignments":null,"blocks":null,"branches":null,"calls":null,"comments":null,"empty":null,"escapes":null,"functions":null,"indices":null,"jumps":null,"loops":null,"operators":null,"returns":null,"tables":null,"values":null},"records":1}
"#;

/// Texts that have no tokens, and texts whose rules on labels, `break` or `...` are broken on a
/// later line.
const REFUSED: &str = r#"{
  "pool": "rpool",
  "now": 0,
  "setup": [],
  "programs": {
    "byte": "x = @",
    "letter": "return 3x",
    "no-digit": "return 0x",
    "escape": "return 'a\\q'",
    "decimal": "return '\\300'",
    "quoted": "return 'a\nb'",
    "long": "return [[a]",
    "comment": "x = 1 --[[ y ]",
    "labels": "::a::\n::a::",
    "no-label": "\ngoto l",
    "jump": "x = 1\ngoto l\nlocal x\n::l::\nx = 1",
    "break": "do\n  break\nend",
    "dots": "return function()\n  return ...\nend"
  },
  "sessions": []
}"#;

const REFUSED_OUTPUT: &str =
    r#"{"programs":{"break":"the text does not load: BreakOutside at 2","byte":"the text does not load: BadByte at 4","comment":"the text does not load: OpenComment at 6","decimal":"the text does not load: BadEscape at 8","dots":"the text does not load: VarargOutside at 2","escape":"the text does not load: BadEscape at 9","jump":"the text does not load: JumpsIntoLocal at 2","labels":"the text does not load: TwoLabels at 2","letter":"the text does not load: BadByte at 8","long":"the text does not load: OpenString at 7","no-digit":"the text does not load: BadByte at 9","no-label":"the text does not load: NoLabel at 2","quoted":"the text does not load: OpenString at 7"},"records":1}
"#;

const LIMITS_OUTPUT: &str =
    r#"{"programs":{"deep":null,"full":null,"too-deep":"the text does not load: TooDeep at 207","too-long":"the text does not load: TextTooLong at 1048577"},"records":1}
"#;

#[test]
fn tells_which_texts_load(rt: HostRuntime) -> Result<(), Fail> {
    for (document, output) in [(LOADING, LOADING_OUTPUT), (REFUSED, REFUSED_OUTPUT)] {
        let (status, written) = run(rt.alloc(), "check", document)?;
        assert!(rt; matches!(status, Status::Ok));
        assert!(rt; written.as_slice() == output.as_bytes(), "{document}");
    }
    Ok(())
}

fn repeated(alloc: Global, part: &str, times: usize) -> Result<String, AllocError> {
    let mut text = String::new(alloc);
    for _ in 0..times {
        text.push_str(part)?;
    }
    Ok(text)
}

/// The most levels and the most bytes that a text may have, and one more of each.
fn limits(alloc: Global) -> Result<String, AllocError> {
    let opened = repeated(alloc, "(", 200)?;
    let closed = repeated(alloc, ")", 200)?;
    let blanks = repeated(alloc, " ", 1_048_576)?;
    format!(in alloc;
        r#"{{"pool":"rpool","now":0,"setup":[],"programs":{{"deep":"return {opened}1{closed}","too-deep":"return {opened}(1){closed}","full":"{blanks}","too-long":"{blanks} "}},"sessions":[]}}"#
    )
}

#[test]
fn keeps_the_limits_of_a_text(rt: HostRuntime) -> Result<(), Fail> {
    let document = limits(rt.alloc())?;
    let (status, written) = run(rt.alloc(), "check", document.as_str())?;
    assert!(rt; matches!(status, Status::Ok));
    assert!(rt; written.as_slice() == LIMITS_OUTPUT.as_bytes());
    Ok(())
}
