//! Arithmetic (Lua 5.2 manual, 3.4.1). Numbers are whole and of 64 bits here.

ghost use Rattle.std.specs.Prelude.{◌≡◌, ◌≤◌, ◌<◌, ◌+◌, ◌%◌, ◌^◌, pos, neg_ℤ, ◌-ℤ◌, ◌*ℤ◌, ◌<ℤ◌, ◌≤ℤ◌};
ghost use Rattle.std.specs.Int.{w64, int_div_euclid, int_wrapping_pow};
ghost use Rattle.lua_meaning.specs.Numbers.{to_int, numbers, wrapped, floor_div, work_out};
ghost use Rattle.lua_meaning.specs.Operators.{arith, event, negative, worked};
ghost use Rattle.lua_values.specs.Events.{event_name};
ghost use Rattle.lua_values.specs.Lending.{with_budget};
ghost use Rattle.lua_values.specs.Ids.{ids_of, IsOf};
ghost use Rattle.lua_ops.specs.Answers.{IsOpAnswer, IsOwnAnswer};
ghost use Rattle.lua_ops.specs.Kinds.{arith_op};
ghost use Rattle.lua_ops.specs.Working.{worked_of};

use crate::errors::{fails, fails_on};
use crate::metamethods::{called, called_with, either};
use crate::numbers::to_int;
use crate::result::OpResult;
use lua_ast::BinOp;
use lua_values::{Event, Heap, Lines, Value};
use std::sync::ledger::Ledger;
use zc_budget::Steps;

/// An arithmetic operator.
#[derive(Clone, Copy, PartialEq, Eq, Debug, Drop)]
pub enum ArithOp {
    /// `+`
    Add,
    /// `-` of two
    Sub,
    /// `*`
    Mul,
    /// `/`, rounded down
    Div,
    /// `%`, the remainder of the quotient rounded down
    Mod,
    /// `^`
    Pow,
    /// `-` of one; the second operand isn't looked at
    Neg,
}

/// What an operator on numbers comes to.
enum Worked {
    Number(i64),
    DividesByZero,
    HasNegativeExponent,
}

/// `a op b`, or unary `-` of `a`: of numbers and texts that count as numbers, or else by the
/// metamethod of the first that has one.
pub fn arith<L: Ledger>(
    heap: &mut Heap,
    op: ArithOp,
    a: &Value,
    b: &Value,
    lines: Lines,
    steps: &mut Steps<L>,
) -> OpResult
    requires first { IsOf (ids_of heap.old) a.now }
    requires second { IsOf (ids_of heap.old) b.now }
    ensures answer { IsOpAnswer (arith_op op a.now b.now lines.now) heap.old result heap.new }
    ensures own { IsOwnAnswer (ids_of heap.new) result }
    ensures others { heap.new ≡ with_budget heap.old heap.new.used }
    ensures steps { steps.new ≤ steps.old + 256 }
{
    match op {
        ArithOp::Add => binary(heap, (BinOp::Add, Event::Add), a, b, lines, steps),
        ArithOp::Sub => binary(heap, (BinOp::Sub, Event::Sub), a, b, lines, steps),
        ArithOp::Mul => binary(heap, (BinOp::Mul, Event::Mul), a, b, lines, steps),
        ArithOp::Div => binary(heap, (BinOp::Div, Event::Div), a, b, lines, steps),
        ArithOp::Mod => binary(heap, (BinOp::Mod, Event::Mod), a, b, lines, steps),
        ArithOp::Pow => binary(heap, (BinOp::Pow, Event::Pow), a, b, lines, steps),
        ArithOp::Neg => negative(heap, a, lines, steps),
    }
}

/// An operator with two operands, and the event of its metamethod.
fn binary<L: Ledger>(
    heap: &mut Heap,
    operator: (BinOp, Event),
    a: &Value,
    b: &Value,
    lines: Lines,
    steps: &mut Steps<L>,
) -> OpResult
    requires event { event_name operator.1 ≡ event operator.0 }
    requires first { IsOf (ids_of heap.old) a.now }
    requires second { IsOf (ids_of heap.old) b.now }
    ensures answer { IsOpAnswer (arith operator.0 (numbers a.now b.now) a.now b.now lines.now) heap.old result heap.new }
    ensures own { IsOwnAnswer (ids_of heap.new) result }
    ensures others { heap.new ≡ with_budget heap.old heap.new.used }
    ensures steps { steps.new ≤ steps.old + 256 }
{
    let (op, event) = operator;
    let first = to_int(a);
    let second = to_int(b);
    if let (Some(x), Some(y)) = (first, second) {
        return told(heap, work_out(op, x, y), lines, steps);
    }
    match either(heap, event, a, b, steps) {
        Err(_) => OpResult::NoMemory,
        Ok(Value::Nil) => {
            let wrong = if first.is_some() { b } else { a };
            fails_on(heap, "perform arithmetic on", wrong, lines, steps)
        }
        Ok(function) => called(heap, function, a, b, false),
    }
}

/// Unary `-`.
fn negative<L: Ledger>(heap: &mut Heap, a: &Value, lines: Lines, steps: &mut Steps<L>) -> OpResult
    requires { IsOf (ids_of heap.old) a.now }
    ensures answer { IsOpAnswer (negative (to_int a.now) a.now lines.now) heap.old result heap.new }
    ensures own { IsOwnAnswer (ids_of heap.new) result }
    ensures others { heap.new ≡ with_budget heap.old heap.new.used }
    ensures steps { steps.new ≤ steps.old + 256 }
{
    if let Some(number) = to_int(a) {
        return OpResult::Done(Value::Int(wrapped(-(number as i128))));
    }
    match heap.metamethod(a, Event::Unm, steps) {
        Err(_) => OpResult::NoMemory,
        Ok(Value::Nil) => fails_on(heap, "perform arithmetic on", a, lines, steps),
        Ok(function) => called_with(heap, function, a),
    }
}

/// What comes of numbers, or the error.
fn told<L: Ledger>(heap: &mut Heap, outcome: Worked, lines: Lines, steps: &mut Steps<L>) -> OpResult
    ensures answer { IsOpAnswer (worked (worked_of outcome) lines.now) heap.old result heap.new }
    ensures own { IsOwnAnswer (ids_of heap.new) result }
    ensures others { heap.new ≡ with_budget heap.old heap.new.used }
    ensures steps { steps.new ≤ steps.old + 1 }
{
    match outcome {
        Worked::Number(number) => OpResult::Done(Value::Int(number)),
        Worked::DividesByZero => fails(heap, b"attempt to divide by zero", lines, steps),
        Worked::HasNegativeExponent => fails(heap, b"negative exponent", lines, steps),
    }
}

/// An operator on numbers.
fn work_out(op: BinOp, x: i64, y: i64) -> Worked
    ensures { worked_of result ≡ work_out op x y }
{
    match op {
        BinOp::Add => Worked::Number(wrapped(x as i128 + y as i128)),
        BinOp::Sub => Worked::Number(wrapped(x as i128 - y as i128)),
        BinOp::Mul => Worked::Number(wrapped(x as i128 * y as i128)),
        BinOp::Div if y == 0 => Worked::DividesByZero,
        BinOp::Div => Worked::Number(wrapped(floor_div(x, y))),
        BinOp::Mod if y == 0 => Worked::DividesByZero,
        BinOp::Mod => Worked::Number(wrapped(remainder(x, y))),
        BinOp::Pow if y < 0 => Worked::HasNegativeExponent,
        BinOp::Pow => Worked::Number(power(x, y as u64)),
        _ => Worked::Number(x),
    }
}

/// The number of 64 signed bits that has the same lowest 64 bits.
#[tactic(auto, using(crate::proofs::Wrapping::wrap_is))]
fn wrapped(number: i128) -> i64
    ensures { result ≡ wrapped number }
{
    (number.rem_euclid(18_446_744_073_709_551_616) as u64).cast_signed()
}

/// The quotient, rounded down.
fn floor_div(x: i64, y: i64) -> i128
    requires { y ≡ pos 0 → ⊥ }
    ensures { result ≡ floor_div x y }
{
    let (x, y) = (x as i128, y as i128);
    if y > 0 {
        x.div_euclid(y)
    } else {
        (-x).div_euclid(-y)
    }
}

/// The remainder of the quotient rounded down.
fn remainder(x: i64, y: i64) -> i128
    requires { y ≡ pos 0 → ⊥ }
    ensures { result ≡ x -ℤ (y *ℤ floor_div x y) }
{
    if y > 0 {
        remainder_by(x as i128, y as i128)
    } else {
        turned(remainder_by(negated(x), negated(y)))
    }
}

/// The number with the other sign.
fn negated(number: i64) -> i128
    ensures { result ≡ neg_ℤ number }
{
    -(number as i128)
}

/// The number with the other sign.
fn turned(number: i128) -> i128
    requires { (neg_ℤ (pos 9223372036854775808) ≤ℤ number) × (number ≤ℤ pos 9223372036854775808) }
    ensures { result ≡ neg_ℤ number }
{
    -number
}

/// The remainder by a divisor above zero.
fn remainder_by(x: i128, y: i128) -> i128
    requires above { pos 0 <ℤ y }
    requires small { y ≤ℤ pos 9223372036854775808 }
    ensures value { result ≡ x -ℤ (y *ℤ int_div_euclid x y) }
    ensures small { (neg_ℤ (pos 9223372036854775808) ≤ℤ result) × (result ≤ℤ pos 9223372036854775808) }
{
    x.rem_euclid(y)
}

/// A power, of which the lowest 64 bits stay.
fn power(x: i64, exponent: u64) -> i64
    requires { exponent < 2 ^ 63 }
    ensures { result ≡ int_wrapping_pow w64 x exponent }
{
    power_bits(x.cast_unsigned(), exponent).cast_signed()
}

/// The lowest 64 bits of a power, in two parts, since the exponent of std's has 32 bits.
#[tactic(auto, using(crate::proofs::Powers::power_cut))]
fn power_bits(base: u64, exponent: u64) -> u64
    requires { exponent < 2 ^ 63 }
    ensures { result ≡ base ^ exponent % 2 ^ 64 }
{
    let high = (exponent / 2_147_483_648) as u32;
    let low = (exponent % 2_147_483_648) as u32;
    base.wrapping_pow(2_147_483_648)
        .wrapping_pow(high)
        .wrapping_mul(base.wrapping_pow(low))
}
