//! The walk through a text from left to right.

ghost use Rattle.std.specs.Prelude.{All, ◌≡◌, ◌<◌, ◌∷◌, ◌++◌, List, [], length, reverse, IfOk, MatchOption};
ghost use Rattle.lua_ast.specs.Decode.{tree, own_number};
ghost use Rattle.lua_scope.specs.declared.occurrence.Occurrence.{Occurrence as OccurrenceOf};
ghost use Rattle.lua_scope.specs.Walk.{walked};
ghost use Rattle.lua_scope.specs.OfChunk.{occurrences_of};
ghost use Rattle.lua_scope.specs.Tasks.{walks};
ghost use Rattle.lua_scope.specs.Walking.{size, weights, OccurrenceBelow, TaskBelow, TasksBelow};

use crate::block::body_tasks;
use crate::node_tasks::node_tasks;
use crate::occurrence::Occurrence;
use crate::task::Task;
use lua_ast::{Chunk, NodeId};
use std::alloc::{AllocError, Global};
use std::marker::Model;

/// The tasks that are still to be done.
#[derive(Debug, Drop)]
pub(crate) struct Pending {
    /// The next one is last.
    tasks: Vec<Task>,
}

impl Model for Pending {
    ghost use Rattle.std.specs.Prelude.{List, reverse};
    ghost use Rattle.lua_scope.specs.declared.task.Task.{Task as TaskOf};

    ghost Value = { List TaskOf };

    ghost view = { λ pending. reverse pending.tasks.items };
}

impl Pending {
    fn new(alloc: Global) -> Pending
        ensures { result ≡ [] }
    {
        Pending {
            tasks: Vec::new(alloc),
        }
    }

    /// The next task.
    fn pop(&mut self) -> Option<Task>
        ensures { MatchOption result (self.old ≡ []) (λ task. self.old ≡ task ∷ self.new) }
    {
        self.tasks.pop()
    }

    /// Adds tasks that come before the others.
    fn push_all(&mut self, mut tasks: Vec<Task>) -> Result<(), AllocError>
        ensures { IfOk result (λ _. self.new ≡ tasks.items ++ self.old) }
    {
        while let Some(task) = tasks.pop() {
            self.tasks.push(task)?;
        }
        Ok(())
    }
}

/// The tasks that a task leaves to be done, of a node.
fn visit(alloc: Global, chunk: &Chunk, id: NodeId) -> Result<Vec<Task>, AllocError>
    requires { id < length chunk.now.nodes }
    ensures walk { IfOk result (λ tasks. (seen : List OccurrenceOf) →
        walks (tree own_number chunk.now.nodes) seen tasks.items
        ≡ walked seen (tree own_number chunk.now.nodes id)) }
    ensures less { IfOk result (λ tasks. weights (tree own_number chunk.now.nodes) tasks.items
        < size (tree own_number chunk.now.nodes id)) }
    ensures below { IfOk result (λ tasks. TasksBelow (length chunk.now.nodes) tasks.items) }
{
    let line = chunk.line(id);
    let tasks = node_tasks(alloc, id, line, chunk.node(id))?;
    Ok(tasks.into_vec())
}

/// Does one task.
fn step(
    alloc: Global,
    chunk: &Chunk,
    task: Task,
    pending: &mut Pending,
    occurrences: &mut Vec<Occurrence>,
) -> Result<(), AllocError>
    requires { TaskBelow (length chunk.now.nodes) task }
    ensures walk { IfOk result (λ _.
        walks (tree own_number chunk.now.nodes) (reverse occurrences.new.items) pending.new
        ≡ walks (tree own_number chunk.now.nodes) (reverse occurrences.old.items)
        (task ∷ pending.old)) }
    ensures less { IfOk result (λ _. weights (tree own_number chunk.now.nodes) pending.new
        < weights (tree own_number chunk.now.nodes) (task ∷ pending.old)) }
    ensures below { IfOk result (λ _. TasksBelow (length chunk.now.nodes) pending.old →
        TasksBelow (length chunk.now.nodes) pending.new) }
    ensures occurrences { IfOk result (λ _. All (OccurrenceBelow (length chunk.now.nodes)) occurrences.old.items →
        All (OccurrenceBelow (length chunk.now.nodes)) occurrences.new.items) }
{
    match task {
        Task::Emit(occurrence) => {
            occurrences.push(occurrence)?;
            Ok(())
        }
        Task::Visit(node) => {
            pending.push_all(visit(alloc, chunk, node)?)?;
            Ok(())
        }
        Task::Body { node, repeats } => {
            pending.push_all(body_tasks(alloc, chunk, node, repeats)?)?;
            Ok(())
        }
    }
}

/// What the scope rules see of a text, in text order.
pub(crate) fn occurrences_of(alloc: Global, chunk: &Chunk) -> Result<Vec<Occurrence>, AllocError>
    ensures walk { IfOk result (λ occurrences.
        reverse occurrences.items ≡ occurrences_of chunk.now) }
    ensures below { IfOk result (λ occurrences.
        All (OccurrenceBelow (length chunk.now.nodes)) occurrences.items) }
{
    let mut pending = Pending::new(alloc);
    let mut first = Vec::new(alloc);
    first.push(Task::Visit(chunk.root()))?;
    pending.push_all(first)?;
    let mut occurrences = Vec::new(alloc);
    while let Some(task) = pending.pop() {
        step(alloc, chunk, task, &mut pending, &mut occurrences)?;
    }
    Ok(occurrences)
}
