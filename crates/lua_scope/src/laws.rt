//! Laws of what names mean. Each function does nothing, and its contract is the law.

ghost use Rattle.std.specs.Prelude.{◌≡◌, Some, slice_get, ◌⊎◌, ℕ, ◌==◌, ◌≤◌, true, List, []};
ghost use Rattle.std.specs.List.{list_any};
ghost use Rattle.std.specs.List.Sorted.{IsStrictlyIncreasing};
ghost use Rattle.lua_scope.specs.declared.occurrence.Occurrence.{Occurrence as OccurrenceOf};
ghost use Rattle.lua_ast.specs.declared.node.Node.{Node as NodeOf};
ghost use Rattle.lua_ast.specs.Tree.{Tree};
ghost use Rattle.lua_ast.specs.Decode.{ChunkNodes, Ordered, node_at, tree, own_number};
ghost use Rattle.lua_ast.specs.Once.{IsEachOnce};
ghost use Rattle.lua_ast.specs.Numbers.{without_numbers};
ghost use Rattle.lua_ast.specs.Numbered.{IsNumbered};
ghost use Rattle.lua_parser.specs.Parsing.{tree_of};
ghost use Rattle.lua_scope.specs.Walk.{walked};
ghost use Rattle.lua_scope.specs.OfChunk.{occurrences_of};
ghost use Rattle.lua_scope.specs.Meets.{Meets, occurrence_at};
ghost use Rattle.lua_scope.specs.Loads.{HasTokensOf, LoadsAs, Loads, LoadFails};
ghost use Rattle.lua_scope.specs.Gotos.{GotoThere as GotoOf, gotos_of};
ghost use Rattle.lua_scope.specs.Jumps.{Lands, LacksLabel, EntersLocal, HasGoto};
ghost use Rattle.lua_scope.specs.Refusals.{first_refusal};
ghost use Rattle.lua_scope.specs.declared.load_error.LoadError.{LoadError as ErrorOf};
ghost use Rattle.lua_scope.specs.declared.load_error.LoadError.TheVariants.{NoLabel, JumpsIntoLocal};
ghost use Rattle.lua_scope.specs.declared.frame.Frame.{Frame as FrameOf};
ghost use Rattle.lua_scope.specs.Scope.{scope, first_variable};
ghost use Rattle.lua_scope.specs.Variables.{captured_by, is_captured, is_scope_of};
ghost use Rattle.lua_scope.specs.Uses.{UsesInside};

/// The variables that a function captures are told rising, each once.
pub fn captured_variables_rise()
    ensures { (seen : List OccurrenceOf) (f : ℕ) → IsStrictlyIncreasing (captured_by seen f) }
{}

/// A function captures a variable exactly where a Name inside the function means the variable and
/// it was named before the function's own (Lua 5.2 manual, 3.5).
pub fn captured_where_used()
    ensures used { (seen : List OccurrenceOf) (f v : ℕ) → list_any (λ w. w == v) (captured_by seen f) ≡ true → UsesInside seen f v }
    ensures all { (seen : List OccurrenceOf) (f v : ℕ) → UsesInside seen f v → list_any (λ w. w == v) (captured_by seen f) ≡ true }
    ensures flagged { (seen : List OccurrenceOf) (v : ℕ) → is_captured seen v ≡ true → (f : ℕ) × UsesInside seen f v }
    ensures flags { (seen : List OccurrenceOf) (f v : ℕ) → UsesInside seen f v → is_captured seen v ≡ true }
{}

/// Where a function captures a variable that a Name inside it means, each function around that
/// Name captures it too, or it was named since that function began: by the function itself, or
/// within it (Lua 5.2 manual, 3.5).
pub fn captured_on_the_way()
    ensures { (seen : List OccurrenceOf) (f g v : ℕ) (there : UsesInside seen g v) →
        list_any (λ (frame : FrameOf). is_scope_of f frame.kind) (scope there.before).frames ≡ true →
        (list_any (λ w. w == v) (captured_by seen f) ≡ true) ⊎ (first_variable there.before f ≤ v) }
{
    captured_where_used();
}

/// The walk through a text meets each Name of its chunk, and each node that names variables.
/// `Chunk::root` tells that the nodes are in order, `Parsed::chunk` the rest.
pub fn nodes_are_met()
    ensures { (text : List ℕ) (c : ChunkNodes) (i : ℕ) (n : NodeOf) (e : OccurrenceOf) →
        Ordered c.nodes → LoadsAs text (tree_of c) → IsEachOnce c →
        node_at c.nodes i ≡ Some n → occurrence_at i n ≡ Some e →
        (before : List OccurrenceOf) × Meets (occurrences_of c) before e }
{}

/// A text is refused by its tree alone: the numbers of the nodes don't matter.
pub fn numbers_refuse_nothing()
    ensures { (t : Tree) → first_refusal (walked [] (without_numbers t)) ≡ first_refusal (walked [] t) }
{}

/// Every text loads, as one tree, or has one refusal, and never both. A text is any list of numbers here.
pub fn one_answer()
    ensures trees { (text : List ℕ) (s t : Tree) → LoadsAs text s → LoadsAs text t → s ≡ t }
    ensures apart { (text : List ℕ) (e : ErrorOf) → Loads text → LoadFails text e → ⊥ }
    ensures refusals { (text : List ℕ) (d e : ErrorOf) → LoadFails text d → LoadFails text e → d ≡ e }
    ensures all { (text : List ℕ) → Loads text ⊎ ((e : ErrorOf) × LoadFails text e) }
{
    lua_lexer::laws::one_reading();
    lua_grammar::one_reading();
}

/// A text that loads has one tree with numbers: chunks of it whose nodes are numbered in the order
/// of the text name the same nodes by the same numbers, as `load` and `Parsed::chunk` give them.
pub fn one_numbering()
    ensures { (text : List ℕ) (c d : ChunkNodes) → LoadsAs text (tree_of c) → LoadsAs text (tree_of d) →
        IsNumbered c → IsNumbered d → tree own_number c.nodes c.root ≡ tree own_number d.nodes d.root }
{
    one_answer();
}

/// In a text that loads each goto finds its label in its own block or in one around it within its
/// function, and in the innermost that has one. The locals of that block which are in scope there
/// are the first of those at the goto, or the label lies outside them (Lua 5.2 manual, 3.3.4).
pub fn gotos_land()
    ensures { (text : List ℕ) (t : Tree) (k : ℕ) (g : GotoOf) →
        LoadsAs text t → slice_get (gotos_of t) k ≡ Some g → Lands g }
{}

/// A text that is refused for its labels has a goto on the line that is told: of the blocks around
/// it in its function none has the label, or the innermost that has it declares a local between
/// the two. And no text with such a goto loads.
pub fn gotos_refused()
    ensures nowhere { (text : List ℕ) (t : Tree) (l : ℕ) → HasTokensOf text t →
        first_refusal (walked [] t) ≡ Some (NoLabel l) → HasGoto t l LacksLabel }
    ensures over { (text : List ℕ) (t : Tree) (l : ℕ) → HasTokensOf text t →
        first_refusal (walked [] t) ≡ Some (JumpsIntoLocal l) → HasGoto t l EntersLocal }
    ensures lacks { (text : List ℕ) (t : Tree) (l : ℕ) →
        LoadsAs text t → HasGoto t l LacksLabel → ⊥ }
    ensures enters { (text : List ℕ) (t : Tree) (l : ℕ) →
        LoadsAs text t → HasGoto t l EntersLocal → ⊥ }
{}
