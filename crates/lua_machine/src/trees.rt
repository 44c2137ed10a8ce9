//! The trees of a text's nodes.

ghost use Rattle.lua_code.specs.CodeOf.{code_of};
ghost use Rattle.lua_steps.specs.Keeping.{AreTrees, AreFunctions};

use lua_code::laws::trees_of_nodes;
use lua_runs::laws::trees_of_ordered_nodes;
use lua_scope::Parsed;

/// The tree of each node of a text is that of its parts, and the function of its number.
pub(crate) fn are_trees(parsed: &Parsed)
    ensures trees { AreTrees parsed.now.chunk.nodes }
    ensures functions { AreFunctions (code_of parsed.now.chunk) parsed.now.chunk.nodes }
{
    let _root = parsed.chunk().root();
    trees_of_ordered_nodes();
    trees_of_nodes();
}
