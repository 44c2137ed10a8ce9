//! What a node leaves to be done.

ghost use Rattle.std.specs.Prelude.{◌≡◌, ◌∷◌, ◌++◌, [], true, false, length, IfOk};
ghost use Rattle.lua_scope.specs.declared.task.Task.TheVariants as task;
ghost use Rattle.lua_scope.specs.declared.occurrence.Occurrence.TheVariants as occurrence;
ghost use Rattle.lua_scope.specs.declared.occurrence.ScopeKind.TheVariants as kind;
ghost use Rattle.lua_scope.specs.Tasks.{tasks_of, loop_tasks, other_tasks, visits, maybe_task, case_tasks, field_tasks};

use crate::occurrence::{Occurrence, ScopeKind};
use crate::task::{Task, Tasks, copy_name};
use lua_ast::{AstText, AstTexts, Fields, Ids, Node, NodeId};
use std::alloc::{AllocError, Global};

/// The tasks of a node, in text order.
pub(crate) fn node_tasks(
    alloc: Global,
    id: NodeId,
    line: u32,
    node: &Node,
) -> Result<Tasks, AllocError>
    ensures { IfOk result (λ tasks. tasks ≡ tasks_of id line node.now) }
{
    match loop_tasks(alloc, id, node)? {
        Some(tasks) => Ok(tasks),
        None => other_tasks(alloc, id, line, node),
    }
}

/// The tasks of a loop, and nothing for another node.
fn loop_tasks(alloc: Global, id: NodeId, node: &Node) -> Result<Option<Tasks>, AllocError>
    ensures { IfOk result (λ tasks. tasks ≡ loop_tasks id node.now) }
{
    match node {
        Node::While { test, block } => Ok(Some(while_tasks(alloc, *test, *block)?)),
        Node::Repeat { block, test } => Ok(Some(repeat_tasks(alloc, *block, *test)?)),
        Node::NumFor {
            name,
            first,
            limit,
            step,
            block,
        } => Ok(Some(num_for_tasks(alloc, id, name, *first, *limit, step, *block)?)),
        Node::GenFor { names, exps, block } => {
            Ok(Some(gen_for_tasks(alloc, id, names, exps, *block)?))
        }
        _ => Ok(None),
    }
}

/// The tasks of a node that is no loop. Labels and literals have none.
fn other_tasks(alloc: Global, id: NodeId, line: u32, node: &Node) -> Result<Tasks, AllocError>
    ensures { IfOk result (λ tasks. tasks ≡ other_tasks id line node.now) }
{
    match node {
        Node::Block { .. } => block_tasks(alloc, id),
        Node::Local { names, exps } => local_tasks(alloc, id, names, exps),
        Node::Assign { targets, exps } => assign_tasks(alloc, targets, exps),
        Node::CallStat { call } => one_node(alloc, *call),
        Node::Do { block } => one_node(alloc, *block),
        Node::If {
            tests,
            blocks,
            otherwise,
        } => if_tasks(alloc, tests, blocks, otherwise),
        Node::LocalFunction { name, function } => local_function_tasks(alloc, id, name, *function),
        Node::Return { exps } => return_tasks(alloc, exps),
        Node::Break => one_occurrence(alloc, Occurrence::Break { line }),
        Node::Goto { label } => goto_tasks(alloc, line, label),
        Node::Vararg => one_occurrence(alloc, Occurrence::Vararg { line }),
        Node::Function {
            params,
            vararg,
            block,
        } => function_tasks(alloc, id, params, *vararg, *block),
        Node::Name { text } => name_tasks(alloc, id, text),
        Node::Index { object, key } => two_nodes(alloc, *object, *key),
        Node::Call { function, args } => call_tasks(alloc, *function, args),
        Node::Method { object, args, .. } => call_tasks(alloc, *object, args),
        Node::Binary { left, right, .. } => two_nodes(alloc, *left, *right),
        Node::Logic { left, right, .. } => two_nodes(alloc, *left, *right),
        Node::Unary { operand, .. } => one_node(alloc, *operand),
        Node::Paren { inner } => one_node(alloc, *inner),
        Node::Table { fields } => table_tasks(alloc, fields),
        _ => Ok(Tasks::new(alloc)),
    }
}

fn one_occurrence(alloc: Global, occurrence: Occurrence) -> Result<Tasks, AllocError>
    ensures { IfOk result (λ tasks. tasks ≡ task.Emit occurrence ∷ []) }
{
    let mut tasks = Tasks::new(alloc);
    tasks.emit(occurrence)?;
    Ok(tasks)
}

fn one_node(alloc: Global, node: NodeId) -> Result<Tasks, AllocError>
    ensures { IfOk result (λ tasks. tasks ≡ task.Visit node ∷ []) }
{
    let mut tasks = Tasks::new(alloc);
    tasks.visit(node)?;
    Ok(tasks)
}

fn two_nodes(alloc: Global, first: NodeId, second: NodeId) -> Result<Tasks, AllocError>
    ensures { IfOk result (λ tasks. tasks ≡ task.Visit first ∷ task.Visit second ∷ []) }
{
    let mut tasks = Tasks::new(alloc);
    tasks.visit(first)?;
    tasks.visit(second)?;
    Ok(tasks)
}

fn block_tasks(alloc: Global, id: NodeId) -> Result<Tasks, AllocError>
    ensures { IfOk result (λ tasks. tasks ≡ task.Body id false ∷ task.Emit occurrence.Close ∷ []) }
{
    let mut tasks = Tasks::new(alloc);
    let repeats = false;
    tasks.push(Task::Body { node: id, repeats })?;
    tasks.emit(Occurrence::Close)?;
    Ok(tasks)
}

fn local_tasks(alloc: Global, id: NodeId, names: &AstTexts, exps: &Ids) -> Result<Tasks, AllocError>
    ensures { IfOk result (λ tasks. tasks ≡ task.Emit (occurrence.Declare id (length names.now))
        ∷ (visits exps.now ++ task.Emit (occurrence.Enter id names.now) ∷ [])) }
{
    let mut tasks = Tasks::new(alloc);
    let count = names.len();
    tasks.emit(Occurrence::Declare { node: id, count })?;
    tasks.visit_all(exps)?;
    tasks.enter(alloc, id, names)?;
    Ok(tasks)
}

fn local_function_tasks(
    alloc: Global,
    id: NodeId,
    name: &AstText,
    function: NodeId,
) -> Result<Tasks, AllocError>
    ensures { IfOk result (λ tasks. tasks ≡ task.Emit (occurrence.Declare id 1)
        ∷ task.Emit (occurrence.Enter id (name.now ∷ [])) ∷ task.Visit function ∷ []) }
{
    let mut tasks = Tasks::new(alloc);
    tasks.emit(Occurrence::Declare { node: id, count: 1 })?;
    tasks.enter_one(alloc, id, name)?;
    tasks.visit(function)?;
    Ok(tasks)
}

fn assign_tasks(alloc: Global, targets: &Ids, exps: &Ids) -> Result<Tasks, AllocError>
    ensures { IfOk result (λ tasks. tasks ≡ visits targets.now ++ visits exps.now) }
{
    let mut tasks = Tasks::new(alloc);
    tasks.visit_all(targets)?;
    tasks.visit_all(exps)?;
    Ok(tasks)
}

fn if_tasks(
    alloc: Global,
    tests: &Ids,
    blocks: &Ids,
    otherwise: &Option<NodeId>,
) -> Result<Tasks, AllocError>
    ensures { IfOk result (λ tasks. tasks ≡ case_tasks tests.now blocks.now ++ maybe_task otherwise.now) }
{
    let mut tasks = Tasks::new(alloc);
    tasks.visit_cases(tests, blocks)?;
    tasks.visit_any(otherwise)?;
    Ok(tasks)
}

fn while_tasks(alloc: Global, test: NodeId, block: NodeId) -> Result<Tasks, AllocError>
    ensures { IfOk result (λ tasks. tasks ≡ task.Visit test
        ∷ task.Emit (occurrence.Open kind.Loop) ∷ task.Visit block ∷ task.Emit occurrence.Close ∷ []) }
{
    let mut tasks = Tasks::new(alloc);
    tasks.visit(test)?;
    tasks.open_loop()?;
    tasks.visit(block)?;
    tasks.emit(Occurrence::Close)?;
    Ok(tasks)
}

fn repeat_tasks(alloc: Global, block: NodeId, test: NodeId) -> Result<Tasks, AllocError>
    ensures { IfOk result (λ tasks. tasks ≡ task.Emit (occurrence.Open kind.Loop)
        ∷ task.Body block true ∷ task.Visit test ∷ task.Emit occurrence.Close ∷ task.Emit occurrence.Close ∷ []) }
{
    let mut tasks = Tasks::new(alloc);
    tasks.open_loop()?;
    let repeats = true;
    tasks.push(Task::Body {
        node: block,
        repeats,
    })?;
    tasks.visit(test)?;
    tasks.emit(Occurrence::Close)?;
    tasks.emit(Occurrence::Close)?;
    Ok(tasks)
}

fn num_for_tasks(
    alloc: Global,
    id: NodeId,
    name: &AstText,
    first: NodeId,
    limit: NodeId,
    step: &Option<NodeId>,
    block: NodeId,
) -> Result<Tasks, AllocError>
    ensures { IfOk result (λ tasks. tasks ≡ task.Emit (occurrence.Declare id 1) ∷ task.Visit first ∷ task.Visit limit
        ∷ (maybe_task step.now ++ task.Emit (occurrence.Open kind.Loop)
        ∷ task.Emit (occurrence.Enter id (name.now ∷ [])) ∷ task.Visit block ∷ task.Emit occurrence.Close ∷ [])) }
{
    let mut tasks = Tasks::new(alloc);
    tasks.emit(Occurrence::Declare { node: id, count: 1 })?;
    tasks.visit(first)?;
    tasks.visit(limit)?;
    tasks.visit_any(step)?;
    tasks.open_loop()?;
    tasks.enter_one(alloc, id, name)?;
    tasks.visit(block)?;
    tasks.emit(Occurrence::Close)?;
    Ok(tasks)
}

fn gen_for_tasks(
    alloc: Global,
    id: NodeId,
    names: &AstTexts,
    exps: &Ids,
    block: NodeId,
) -> Result<Tasks, AllocError>
    ensures { IfOk result (λ tasks. tasks ≡ task.Emit (occurrence.Declare id (length names.now))
        ∷ (visits exps.now ++ task.Emit (occurrence.Open kind.Loop)
        ∷ task.Emit (occurrence.Enter id names.now) ∷ task.Visit block ∷ task.Emit occurrence.Close ∷ [])) }
{
    let mut tasks = Tasks::new(alloc);
    let count = names.len();
    tasks.emit(Occurrence::Declare { node: id, count })?;
    tasks.visit_all(exps)?;
    tasks.open_loop()?;
    tasks.enter(alloc, id, names)?;
    tasks.visit(block)?;
    tasks.emit(Occurrence::Close)?;
    Ok(tasks)
}

fn function_tasks(
    alloc: Global,
    id: NodeId,
    params: &AstTexts,
    vararg: bool,
    block: NodeId,
) -> Result<Tasks, AllocError>
    ensures { IfOk result (λ tasks. tasks ≡ task.Emit (occurrence.Open (kind.Function id vararg))
        ∷ task.Emit (occurrence.Declare id (length params.now)) ∷ task.Emit (occurrence.Enter id params.now)
        ∷ task.Visit block ∷ task.Emit occurrence.Close ∷ []) }
{
    let mut tasks = Tasks::new(alloc);
    let kind = ScopeKind::Function { node: id, vararg };
    tasks.emit(Occurrence::Open { kind })?;
    let count = params.len();
    tasks.emit(Occurrence::Declare { node: id, count })?;
    tasks.enter(alloc, id, params)?;
    tasks.visit(block)?;
    tasks.emit(Occurrence::Close)?;
    Ok(tasks)
}

fn return_tasks(alloc: Global, exps: &Ids) -> Result<Tasks, AllocError>
    ensures { IfOk result (λ tasks. tasks ≡ visits exps.now) }
{
    let mut tasks = Tasks::new(alloc);
    tasks.visit_all(exps)?;
    Ok(tasks)
}

fn goto_tasks(alloc: Global, line: u32, label: &AstText) -> Result<Tasks, AllocError>
    ensures { IfOk result (λ tasks. tasks ≡ task.Emit (occurrence.Goto line label.now) ∷ []) }
{
    let label = copy_name(alloc, label)?;
    one_occurrence(alloc, Occurrence::Goto { line, label })
}

fn name_tasks(alloc: Global, id: NodeId, text: &AstText) -> Result<Tasks, AllocError>
    ensures { IfOk result (λ tasks. tasks ≡ task.Emit (occurrence.Use id text.now) ∷ []) }
{
    let name = copy_name(alloc, text)?;
    one_occurrence(alloc, Occurrence::Use { node: id, name })
}

/// The tasks of a call, and of a method's call on its object.
fn call_tasks(alloc: Global, function: NodeId, args: &Ids) -> Result<Tasks, AllocError>
    ensures { IfOk result (λ tasks. tasks ≡ task.Visit function ∷ visits args.now) }
{
    let mut tasks = Tasks::new(alloc);
    tasks.visit(function)?;
    tasks.visit_all(args)?;
    Ok(tasks)
}

fn table_tasks(alloc: Global, fields: &Fields) -> Result<Tasks, AllocError>
    ensures { IfOk result (λ tasks. tasks ≡ field_tasks fields.now) }
{
    let mut tasks = Tasks::new(alloc);
    tasks.visit_fields(fields)?;
    Ok(tasks)
}
