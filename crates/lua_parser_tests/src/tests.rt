//! Texts with their trees and refusals, after the grammar of the manual (Lua 5.2, section 9).

use crate::printed::printed;
use lua_lexer::lex;
use lua_parser::{ParseError, parse};
use std::alloc::{AllocError, Global};
use std::process::Abort;
use std::test::Fail;

/// The printed tree of a text, or its refusal.
fn answer(alloc: Global, text: &[u8]) -> Result<Vec<u8>, AllocError> {
    if text.len() > 1048576 {
        return Err(AllocError);
    }
    let Ok(tokens) = lex(alloc, text) else {
        return b"no tokens".to_vec(alloc);
    };
    match parse(alloc, text, tokens.as_slice()) {
        Ok(chunk) => printed(alloc, &chunk),
        Err(ParseError::NoMemory) => Err(AllocError),
        Err(ParseError::Unexpected(at)) => refusal(alloc, "unexpected", at),
        Err(ParseError::TooDeep(at)) => refusal(alloc, "too deep", at),
        Err(ParseError::EndOfText(len)) => refusal(alloc, "end of text", len),
    }
}

fn refusal(alloc: Global, word: &str, at: u32) -> Result<Vec<u8>, AllocError> {
    let text = format!(in alloc; "{word} {at}")?;
    text.as_bytes().to_vec(alloc)
}

/// Each text has this answer.
fn answers(rt: &impl Abort, alloc: Global, table: &[(&str, &str)]) -> Result<(), Fail> {
    for (text, wanted) in table {
        let got = answer(alloc, text.as_bytes())?;
        assert_eq!(rt; got.as_slice(), wanted.as_bytes(), "{text}");
    }
    Ok(())
}

#[test]
fn constants_and_prefixes(rt: HostRuntime) -> Result<(), Fail> {
    let table = [
        ("return", "{return }"),
        (
            "return nil, true, false, 7, 'a', ...",
            "{return nil,true,false,7,'a',...}",
        ),
        ("return 0x10", "{return 16}"),
        ("return [[\nab]]", "{return 'ab'}"),
        ("return a.b", "{return a['b']}"),
        ("return a.b[c].d", "{return a['b'][c]['d']}"),
        ("return (a)", "{return <a>}"),
        ("return ((a + b)) * c", "{return (<<(a+b)>>*c)}"),
        ("return (f())", "{return <f()>}"),
        ("return f(1, 2)(3)", "{return f(1,2)(3)}"),
        ("return f'a'", "{return f('a')}"),
        ("return f{1}", "{return f({1,})}"),
        ("return a:b(1):c'd':e{}", "{return a:b(1):c('d'):e({})}"),
        ("return ('a'):b()", "{return <'a'>:b()}"),
        ("return function() end", "{return fn(){}}"),
        (
            "return function(a, b, ...) return a end",
            "{return fn(a,b...){return a}}",
        ),
        ("return function(...) end", "{return fn(...){}}"),
        ("return {}", "{return {}}"),
        ("return {1, a = 2; [3] = 4, b}", "{return {1,a=2,[3]=4,b,}}"),
        ("return {a}", "{return {a,}}"),
        ("return {a + 1, a.b; f(),}", "{return {(a+1),a['b'],f(),}}"),
        ("return {a = a == b}", "{return {a=(a==b),}}"),
    ];
    answers(&rt, rt.alloc(), table.as_slice())
}

#[test]
fn operators(rt: HostRuntime) -> Result<(), Fail> {
    let table = [
        ("return 1 + 2 - 3", "{return ((1+2)-3)}"),
        ("return 1 + 2 * 3 / 4 % 5", "{return (1+(((2*3)/4)%5))}"),
        ("return a .. b .. c", "{return (a..(b..c))}"),
        ("return a ^ b ^ c", "{return (a^(b^c))}"),
        ("return -a ^ b", "{return (-(a^b))}"),
        ("return a ^ -b", "{return (a^(-b))}"),
        ("return 2 ^ -3 ^ 2", "{return (2^(-(3^2)))}"),
        ("return -a * b", "{return ((-a)*b)}"),
        ("return not a == b", "{return ((not a)==b)}"),
        ("return not not #a", "{return (not (not (#a)))}"),
        ("return a or b and c", "{return (a or (b and c))}"),
        ("return a and b or c", "{return ((a and b) or c)}"),
        ("return a < b == c", "{return ((a<b)==c)}"),
        (
            "return a <= b, a >= b, a > b, a ~= b",
            "{return (a<=b),(a>=b),(a>b),(a~=b)}",
        ),
        ("return a .. b + 1 .. c", "{return (a..((b+1)..c))}"),
        ("return a < b .. c", "{return (a<(b..c))}"),
    ];
    answers(&rt, rt.alloc(), table.as_slice())
}

#[test]
fn statements(rt: HostRuntime) -> Result<(), Fail> {
    let table = [
        ("", "{}"),
        (";;", "{}"),
        ("a = 1", "{a=1}"),
        ("a, b.c, d[e] = 1, f()", "{a,b['c'],d[e]=1,f()}"),
        ("f()", "{call f()}"),
        ("a.b:c()", "{call a['b']:c()}"),
        ("(f)()", "{call <f>()}"),
        ("a.b.c(1):d{} {}", "{call a['b']['c'](1):d({})({})}"),
        ("(a).b = 1", "{<a>['b']=1}"),
        ("f() g()", "{call f() call g()}"),
        ("a = b c = d", "{a=b c=d}"),
        ("a = b; (f)()", "{a=b call <f>()}"),
        ("a = 1 (f)()", "{a=1 call <f>()}"),
        ("a = b\n(f)()", "{a=b(f)()}"),
        ("local a", "{local a=}"),
        ("local a, b = 1, 2", "{local a,b=1,2}"),
        ("local function f(a) end", "{local fn f=fn(a){}}"),
        ("function f() end", "{f=fn(){}}"),
        ("function a.b.c() end", "{a['b']['c']=fn(){}}"),
        ("function a.b:c(d) end", "{a['b']['c']=fn(self,d){}}"),
        ("goto a ::a::", "{goto a ::a}"),
        ("break a = 1", "{break a=1}"),
        ("return;", "{return }"),
    ];
    answers(&rt, rt.alloc(), table.as_slice())
}

#[test]
fn statements_with_blocks(rt: HostRuntime) -> Result<(), Fail> {
    let table = [
        ("do end", "{do{}}"),
        ("do a = 1 end b = 2", "{do{a=1} b=2}"),
        ("while a do b() end", "{while a{call b()}}"),
        ("repeat a() until b", "{repeat{call a()}b}"),
        ("repeat until a (f)()", "{repeat{}a(f)()}"),
        ("if a then b() end", "{if a{call b()}}"),
        (
            "if a then elseif b then c() else d() end",
            "{if a,b{}{call c()}else{call d()}}",
        ),
        ("for i = 1, 2 do end", "{for i=1,2{}}"),
        ("for i = 1, 2, 3 do break end", "{for i=1,2,3{break}}"),
        ("for k, v in pairs(t) do end", "{for k,v in pairs(t){}}"),
        ("for k in a, b do end", "{for k in a,b{}}"),
        ("do return 1; end", "{do{return 1}}"),
        ("if a then return end", "{if a{return }}"),
    ];
    answers(&rt, rt.alloc(), table.as_slice())
}

#[test]
fn refusals(rt: HostRuntime) -> Result<(), Fail> {
    let table = [
        ("a", "end of text 1"),
        ("a.b", "end of text 3"),
        ("return (", "end of text 8"),
        ("do", "end of text 2"),
        ("local", "end of text 5"),
        ("a b", "unexpected 2"),
        ("f() = 1", "unexpected 4"),
        ("(a) = 1", "unexpected 4"),
        ("a, f() = 1", "unexpected 7"),
        ("1", "unexpected 0"),
        ("return return", "unexpected 7"),
        ("return 1 2", "unexpected 9"),
        ("return; a = 1", "unexpected 8"),
        ("end", "unexpected 0"),
        ("if a then else elseif", "unexpected 15"),
        ("local a.b", "unexpected 7"),
        ("function a:b.c() end", "unexpected 12"),
        ("function a[1]() end", "unexpected 10"),
        ("return function(a,) end", "unexpected 18"),
        ("return function(..., a) end", "unexpected 19"),
        ("return {a = }", "unexpected 12"),
        ("return {,}", "unexpected 8"),
        ("return 'a'.b", "unexpected 10"),
        ("return {}.b", "unexpected 9"),
        ("for a.b = 1, 2 do end", "unexpected 5"),
        ("for i = 1 do end", "unexpected 10"),
        ("for i, j = 1, 2 do end", "unexpected 9"),
        ("x = + 1", "unexpected 4"),
        ("goto 1", "unexpected 5"),
        ("f{} = 1", "unexpected 4"),
    ];
    answers(&rt, rt.alloc(), table.as_slice())
}

/// `return` and a 1 in so many parentheses.
fn nested(alloc: Global, levels: usize) -> Result<Vec<u8>, AllocError> {
    let mut text = b"return ".to_vec(alloc)?;
    for _ in 0..levels {
        text.push(b'(')?;
    }
    text.push(b'1')?;
    for _ in 0..levels {
        text.push(b')')?;
    }
    Ok(text)
}

#[test]
fn levels(rt: HostRuntime) -> Result<(), Fail> {
    let fits = nested(rt.alloc(), 200)?;
    let answered = answer(rt.alloc(), fits.as_slice())?;
    assert!(rt; answered.starts_with(b"{return <"));
    let deep = nested(rt.alloc(), 201)?;
    assert_eq!(rt;
        answer(rt.alloc(), deep.as_slice())?.as_slice(),
        b"too deep 207".as_slice()
    );
    Ok(())
}

#[test]
fn lines(rt: HostRuntime) -> Result<(), Fail> {
    let text = b"\n\na\n=\n1";
    let tokens = lex(rt.alloc(), text).ok().ok_or("no tokens")?;
    let chunk = parse(rt.alloc(), text, tokens.as_slice())
        .ok()
        .ok_or("no tree")?;
    assert_eq!(rt; chunk.line(chunk.root()), 3);
    assert_eq!(rt; chunk.len(), 4);
    Ok(())
}
