//! Laws of a text's code. Each function does nothing, and its contract is the law.

ghost use Rattle.std.specs.Prelude.{◌≡◌, ℕ, List};
ghost use Rattle.lua_ast.specs.Tree.{Trees};
ghost use Rattle.lua_meaning.specs.Code.{from_label, locals_before};
ghost use Rattle.lua_scope.specs.Jumps.{stats_from, locals_up_to};
ghost use Rattle.lua_ast.specs.Decode.{ChunkNodes, Ordered, tree, own_number};
ghost use Rattle.lua_ast.specs.Once.{IsEachOnce};
ghost use Rattle.lua_ast.specs.Numbered.{IsNumbered};
ghost use Rattle.lua_parser.specs.Parsing.{tree_of};
ghost use Rattle.lua_scope.specs.Loads.{LoadsAs};
ghost use Rattle.lua_code.specs.CodeOf.{code_of};
ghost use Rattle.lua_code.specs.SameCode.{SameCode};

/// The tree of a node in a text's code is that of the node.
#[tactic(auto, unfolding(crate::specs::CodeOf::code_of))]
pub fn trees_of_nodes()
    ensures { (c : ChunkNodes) (i : ℕ) → (code_of c).function i ≡ tree own_number c.nodes i }
{}

/// The code of a text is a matter of the text alone: chunks of it as `load` and `Parsed::chunk` give
/// them have the same code.
pub fn one_code()
    ensures { (text : List ℕ) (c d : ChunkNodes) → Ordered c.nodes → Ordered d.nodes →
        LoadsAs text (tree_of c) → LoadsAs text (tree_of d) → IsEachOnce c → IsEachOnce d →
        IsNumbered c → IsNumbered d → SameCode (code_of c) (code_of d) }
{
    lua_scope::laws::one_numbering();
}

/// The labels of a block in the meaning are those of the scope rules: what stands from the first
/// label of a name on, and how many locals the statements before it leave in scope.
pub fn one_label()
    ensures from { (x : List ℕ) (ts : Trees) → from_label x ts ≡ stats_from x ts }
    ensures before { (x : List ℕ) (ts : Trees) → locals_before x ts ≡ locals_up_to x ts }
{}
