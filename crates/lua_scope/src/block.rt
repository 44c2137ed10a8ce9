//! What a block leaves to be done, and its labels.

ghost use Rattle.std.specs.Prelude.{◌≡◌, ◌<◌, ◌+◌, ◌∷◌, ◌++◌, List, [], length, if◌then◌else◌, IfOk, MatchOption, Some, None};
ghost use Rattle.std.specs.List.{list_any};
ghost use Rattle.lua_ast.specs.Tree.{Trees, snoc};
ghost use Rattle.lua_ast.specs.Decode.{tree, own_number};
ghost use Rattle.lua_scope.specs.declared.occurrence.Occurrence.{Occurrence as OccurrenceOf};
ghost use Rattle.lua_scope.specs.Labels.{has_name};
ghost use Rattle.lua_scope.specs.Walk.{body_walked};
ghost use Rattle.lua_scope.specs.Tasks.{walks};
ghost use Rattle.lua_scope.specs.Walking.{weights, body_size, TasksBelow};
ghost use Rattle.lua_scope.specs.Scanned.{locals_in, label_name, block_stats, stats_in, Scanned};
ghost use Rattle.lua_scope.specs.declared.task.Task.TheVariants as task;
ghost use Rattle.lua_scope.specs.declared.occurrence.Occurrence.TheVariants as occurrence;

use crate::labels::BlockLabels;
use crate::occurrence::{Occurrence, ScopeKind};
use crate::task::{Task, Tasks};
use lua_ast::{AstText, Chunk, Ids, Node, NodeId};
use std::alloc::{AllocError, Global};

/// A block's statements so far.
#[derive(Debug, Drop)]
pub(crate) struct Statements {
    labels: BlockLabels,
    /// How many labels have other statements behind them.
    inside: usize,
    /// How many locals the statements declare.
    locals: usize,
    tasks: Tasks,
}

/// How many locals a statement leaves in scope behind it.
fn count_locals(node: &Node) -> usize
    ensures { result ≡ locals_in node.now }
{
    match node {
        Node::Local { names, .. } => names.len(),
        Node::LocalFunction { .. } => 1,
        _ => 0,
    }
}

/// The name of a label.
fn label_of(node: &Node) -> Option<&AstText>
    ensures { MatchOption result (label_name node.now ≡ None) (λ label. label_name node.now ≡ Some label.now) }
{
    match node {
        Node::Label { label } => Some(label),
        _ => None,
    }
}

impl Statements {
    fn new(alloc: Global) -> Statements
        ensures labels { result.labels ≡ [] }
        ensures inside { result.inside ≡ 0 }
        ensures locals { result.locals ≡ 0 }
        ensures tasks { result.tasks ≡ [] }
    {
        Statements {
            labels: BlockLabels::new(alloc),
            inside: 0,
            locals: 0,
            tasks: Tasks::new(alloc),
        }
    }

    fn push_label(&mut self, alloc: Global, line: u32, label: &AstText) -> Result<(), AllocError>
        ensures labels { IfOk result (λ _. self.new.labels
            ≡ self.old.labels ++ record { name = label.now; locals = self.old.locals } ∷ []) }
        ensures inside { IfOk result (λ _. self.new.inside ≡ self.old.inside) }
        ensures locals { IfOk result (λ _. self.new.locals ≡ self.old.locals) }
        ensures tasks { IfOk result (λ _. self.new.tasks
            ≡ (if list_any (has_name label.now) self.old.labels
            then self.old.tasks ++ task.Emit (occurrence.SecondLabel line) ∷ []
            else self.old.tasks)) }
    {
        let second = self.labels.contains(label);
        self.labels.push(alloc, label, self.locals)?;
        if second {
            self.tasks.emit(Occurrence::SecondLabel { line })?;
        }
        Ok(())
    }

    /// A statement that is no label.
    fn push_other(&mut self, id: NodeId, locals: usize) -> Result<(), AllocError>
        ensures labels { IfOk result (λ _. self.new.labels ≡ self.old.labels) }
        ensures inside { IfOk result (λ _. self.new.inside ≡ length self.old.labels) }
        ensures locals { IfOk result (λ _. self.new.locals ≡ self.old.locals + locals) }
        ensures tasks { IfOk result (λ _. self.new.tasks ≡ self.old.tasks ++ task.Visit id ∷ []) }
    {
        self.tasks.visit(id)?;
        self.locals = self.locals.checked_add(locals).ok_or(AllocError)?;
        self.inside = self.labels.len();
        Ok(())
    }

    /// How many labels lie inside the block's locals.
    fn labels_inside(&self, repeats: bool) -> usize
        ensures { result ≡ (if repeats then length self.now.labels else self.now.inside) }
    {
        if repeats {
            self.labels.len()
        } else {
            self.inside
        }
    }

    fn push(&mut self, alloc: Global, chunk: &Chunk, id: NodeId) -> Result<(), AllocError>
        requires { id < length chunk.now.nodes }
        ensures { IfOk result (λ _. (ts : Trees) →
            Scanned (tree own_number chunk.now.nodes) (length chunk.now.nodes) ts self.old →
            Scanned (tree own_number chunk.now.nodes) (length chunk.now.nodes)
            (snoc ts (tree own_number chunk.now.nodes id)) self.new) }
    {
        let line = chunk.line(id);
        let node = chunk.node(id);
        match label_of(node) {
            Some(label) => {
                self.push_label(alloc, line, label)?;
                Ok(())
            }
            None => {
                self.push_other(id, count_locals(node))?;
                Ok(())
            }
        }
    }
}

/// The statements of a block.
fn stats_of(node: &Node) -> Option<&Ids>
    ensures { MatchOption result (block_stats node.now ≡ None) (λ stats. block_stats node.now ≡ Some stats.now) }
{
    match node {
        Node::Block { stats } => Some(stats),
        _ => None,
    }
}

/// All statements of a block. A node that is no block has none.
fn read_statements(alloc: Global, chunk: &Chunk, id: NodeId) -> Result<Statements, AllocError>
    requires { id < length chunk.now.nodes }
    ensures { IfOk result (λ all.
        Scanned (tree own_number chunk.now.nodes) (length chunk.now.nodes)
        (stats_in (tree own_number chunk.now.nodes id)) all) }
{
    let line = chunk.line(id);
    let node = chunk.node(id);
    let mut all = Statements::new(alloc);
    let Some(stats) = stats_of(node) else {
        return Ok(all);
    };
    for stat in stats.as_slice() {
        all.push(alloc, chunk, *stat)?;
    }
    Ok(all)
}

/// The tasks of a block up to its end. `repeats` tells whether it is the body of a repeat, whose
/// condition sees its locals.
pub(crate) fn body_tasks(
    alloc: Global,
    chunk: &Chunk,
    id: NodeId,
    repeats: bool,
) -> Result<Vec<Task>, AllocError>
    requires { id < length chunk.now.nodes }
    ensures walk { IfOk result (λ tasks. (seen : List OccurrenceOf) →
        walks (tree own_number chunk.now.nodes) seen tasks.items
        ≡ body_walked repeats seen (tree own_number chunk.now.nodes id)) }
    ensures less { IfOk result (λ tasks. weights (tree own_number chunk.now.nodes) tasks.items
        < body_size (tree own_number chunk.now.nodes id)) }
    ensures below { IfOk result (λ tasks. TasksBelow (length chunk.now.nodes) tasks.items) }
{
    let all = read_statements(alloc, chunk, id)?;
    let inside = all.labels_inside(repeats);
    let Statements { labels, tasks, .. } = all;
    let kind = ScopeKind::Block { labels, inside };
    let mut all = tasks.into_vec();
    all.insert(0, Task::Emit(Occurrence::Open { kind }))?;
    Ok(all)
}
