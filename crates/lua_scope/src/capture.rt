//! Which functions capture a variable.

ghost use Rattle.std.specs.Prelude.{◌≡◌, ◌<◌, [], ℕ, length, IfOk, IfSome, slice_index_or, is_some, ◌==◌, ◌&&◌, if◌then◌else◌};
ghost use Rattle.lua_scope.specs.Variables.{captures, captured_in, is_scope_of, with_number, with_use};

use crate::frame::Frame;
use crate::numbers::Numbers;
use crate::occurrence::ScopeKind;
use lua_ast::NodeId;
use std::alloc::AllocError;

/// The function that a frame is, if it captures the variable. `first` has for each node the number
/// of its first variable.
fn capturing(frame: &Frame, first: &[u32], variable: u32) -> Option<NodeId>
    ensures captures { captures (λ (i : ℕ). slice_index_or first.now i 0) variable frame.now.kind ≡ is_some result }
    ensures function { IfSome result (λ node. (f : ℕ) → is_scope_of f frame.now.kind ≡ (node == f)) }
{
    match &frame.kind {
        ScopeKind::Function { node, .. } => {
            let own = first.get(node.index()).copied().unwrap_or(0);
            (variable < own).then_some(*node)
        }
        ScopeKind::Block { .. } => None,
        ScopeKind::Loop => None,
    }
}

/// Puts a variable that is used into what a frame captures, and tells whether it captures it.
fn capture_in(
    frame: &Frame,
    first: &[u32],
    variable: u32,
    captured: &mut Vec<Numbers>,
) -> Result<bool, AllocError>
    ensures any { IfOk result (λ any.
        any ≡ captures (λ (i : ℕ). slice_index_or first.now i 0) variable frame.now.kind) }
    ensures len { length captured.new.items ≡ length captured.old.items }
    ensures each { IfOk result (λ _. (f : ℕ) → f < length captured.old.items →
        slice_index_or captured.new.items f []
        ≡ (if is_scope_of f frame.now.kind
        && captures (λ (i : ℕ). slice_index_or first.now i 0) variable frame.now.kind
        then with_number variable (slice_index_or captured.old.items f [])
        else slice_index_or captured.old.items f [])) }
{
    let Some(function) = capturing(frame, first, variable) else {
        return Ok(false);
    };
    if let Some(numbers) = captured.get_mut(function.index()) {
        numbers.put(variable)?;
    }
    Ok(true)
}

/// Puts a variable that is used into what the functions around capture. VariablesAre whether one of them
/// captures it.
pub(crate) fn capture(
    frames: &[Frame],
    first: &[u32],
    variable: u32,
    captured: &mut Vec<Numbers>,
) -> Result<bool, AllocError>
    ensures any { IfOk result (λ any.
        any ≡ captured_in (λ (i : ℕ). slice_index_or first.now i 0) variable frames.now) }
    ensures len { length captured.new.items ≡ length captured.old.items }
    ensures each { IfOk result (λ _. (f : ℕ) → f < length captured.old.items →
        slice_index_or captured.new.items f []
        ≡ with_use (λ (i : ℕ). slice_index_or first.now i 0) f variable
        (slice_index_or captured.old.items f []) frames.now) }
{
    let mut any = false;
    for frame in frames {
        let here = capture_in(frame, first, variable, captured)?;
        any = any || here;
    }
    Ok(any)
}
