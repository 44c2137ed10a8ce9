//! Laws of the trees that nodes decode to. Each function does nothing, and its contract is the law.

ghost use Rattle.std.specs.Prelude.{◌≡◌, ◌<◌, ◌≤◌, ◌∷◌, ◌++◌, [], ℕ, List, Option, length, Some, slice_get};
ghost use Rattle.lua_ast.specs.declared.node.LinedNode.{LinedNode as LinedNodeOf};
ghost use Rattle.lua_ast.specs.declared.node.Node.{Node as NodeOf};
ghost use Rattle.lua_ast.specs.declared.node.Field.{Field as FieldOf};
ghost use Rattle.lua_ast.specs.Tree.{Tree, snoc, case};
ghost use Rattle.lua_ast.specs.Numbers.{without_numbers};
ghost use Rattle.lua_ast.specs.Decode.{Ordered, PartsBelow, AllBelow, MaybeBelow, FieldBelow, FieldsBelow, node_tree, tree, tree_in, trees, list_of, cases_of, fields_of, maybe_of, with_field, no_number};

/// A node's tree is made of its parts' trees, whichever of the 27 kinds it has.
pub fn tree_of_parts()
    ensures { (number : ℕ → ℕ) (nodes : List LinedNodeOf) (i : ℕ) (n : LinedNodeOf) →
        Ordered nodes → slice_get nodes i ≡ Some n →
        tree number nodes i ≡ node_tree (tree number nodes) (number i) n.line n.node }
{}

/// A node's tree depends on the trees of its parts alone.
pub fn same_parts()
    ensures node { (f g : ℕ → Tree) (n : ℕ) → ((j : ℕ) → j < n → f j ≡ g j) →
        (number line : ℕ) (node : NodeOf) → PartsBelow n node →
        node_tree f number line node ≡ node_tree g number line node }
    ensures list { (f g : ℕ → Tree) (n : ℕ) → ((j : ℕ) → j < n → f j ≡ g j) →
        (is : List ℕ) → AllBelow n is → list_of f is ≡ list_of g is }
    ensures cases { (f g : ℕ → Tree) (n : ℕ) → ((j : ℕ) → j < n → f j ≡ g j) →
        (tests blocks : List ℕ) → AllBelow n tests → AllBelow n blocks →
        cases_of f tests blocks ≡ cases_of g tests blocks }
    ensures fields { (f g : ℕ → Tree) (n : ℕ) → ((j : ℕ) → j < n → f j ≡ g j) →
        (fs : List FieldOf) → FieldsBelow n fs → fields_of f fs ≡ fields_of g fs }
    ensures maybe { (f g : ℕ → Tree) (n : ℕ) → ((j : ℕ) → j < n → f j ≡ g j) →
        (o : Option ℕ) → MaybeBelow n o → maybe_of f o ≡ maybe_of g o }
{}

/// The fold over the nodes gives the tree of each node, and no other.
pub fn trees_by_a_fold()
    ensures each { (number : ℕ → ℕ) (nodes : List LinedNodeOf) (i : ℕ) →
        Ordered nodes → tree_in (trees number nodes) i ≡ tree number nodes i }
    ensures count { (number : ℕ → ℕ) (nodes : List LinedNodeOf) →
        length (trees number nodes) ≡ length nodes }
{}

/// More nodes at the end change no tree.
pub fn more_nodes()
    ensures { (number : ℕ → ℕ) (nodes more : List LinedNodeOf) (i : ℕ) →
        Ordered nodes → i < length nodes → tree number (nodes ++ more) i ≡ tree number nodes i }
{}

/// A list with one element more has one tree more, at its end.
pub fn longer_lists()
    ensures list { (part : ℕ → Tree) (is : List ℕ) (i : ℕ) →
        list_of part (is ++ i ∷ []) ≡ snoc (list_of part is) (part i) }
    ensures cases { (part : ℕ → Tree) (tests blocks : List ℕ) (t b : ℕ) →
        length tests ≡ length blocks →
        cases_of part (tests ++ t ∷ []) (blocks ++ b ∷ [])
        ≡ case (cases_of part tests blocks) (part t) (part b) }
    ensures test { (part : ℕ → Tree) (tests blocks : List ℕ) (t : ℕ) →
        length tests ≡ length blocks →
        cases_of part (tests ++ t ∷ []) blocks ≡ cases_of part tests blocks }
    ensures fields { (part : ℕ → Tree) (fs : List FieldOf) (f : FieldOf) →
        fields_of part (fs ++ f ∷ []) ≡ with_field part (fields_of part fs) f }
{}

/// Places below a number: each of a list, in a list with one more, and below a greater number.
pub fn places_below()
    ensures each { (n : ℕ) (is : List ℕ) (k i : ℕ) →
        AllBelow n is → slice_get is k ≡ Some i → i < n }
    ensures each_field { (n : ℕ) (fs : List FieldOf) (k : ℕ) (f : FieldOf) →
        FieldsBelow n fs → slice_get fs k ≡ Some f → FieldBelow n f }
    ensures one_more { (n : ℕ) (is : List ℕ) (i : ℕ) →
        AllBelow n is → i < n → AllBelow n (is ++ i ∷ []) }
    ensures one_more_field { (n : ℕ) (fs : List FieldOf) (f : FieldOf) →
        FieldsBelow n fs → FieldBelow n f → FieldsBelow n (fs ++ f ∷ []) }
    ensures greater { (n m : ℕ) (is : List ℕ) → n ≤ m → AllBelow n is → AllBelow m is }
    ensures greater_fields { (n m : ℕ) (fs : List FieldOf) →
        n ≤ m → FieldsBelow n fs → FieldsBelow m fs }
{}

/// The numbers are labels: left out, they leave the tree that a grammar speaks of.
pub fn numbers_left_out()
    ensures { (number : ℕ → ℕ) (nodes : List LinedNodeOf) (i : ℕ) →
        without_numbers (tree number nodes i) ≡ tree no_number nodes i }
{}
