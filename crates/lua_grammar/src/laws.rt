//! Laws of the grammar. Each function does nothing, and its contract is the law.
ghost use Rattle.std.specs.Prelude.{◌≡◌, ◌≤◌, ◌<◌, ℕ, Bool, List, [], ◌∷◌, ◌++◌, take};
ghost use Rattle.lua_ast.specs.Tree.{Tree, line_of};
ghost use Rattle.lua_lexer.specs.declared.token.Token.{Token as TokenAt};
ghost use Rattle.lua_grammar.specs.Signs.{Terminal, Sign, line_at};
ghost use Rattle.lua_grammar.specs.Grammar.{Exp, Stat, Block};
ghost use Rattle.lua_grammar.specs.Parses.{signs, end_sign, frees, loose, Whole, Starts, Parses, Begins, IsRefused, Reading, Reads};

/// What is read has one tree.
pub fn one_tree()
    ensures { (text : List ℕ) (ts : List TokenAt) (s t : Tree) → Parses text ts s → Parses text ts t → s ≡ t }
{}

/// Every list of tokens has exactly one reading: it is a text of the grammar with a tree, or one token is unexpected, or one
/// token opens a 201st level, or the text goes on.
pub fn one_reading()
    ensures some { (text : List ℕ) (ts : List TokenAt) → (r : Reading) × Reads text ts r }
    ensures only { (text : List ℕ) (ts : List TokenAt) (r s : Reading) → Reads text ts r → Reads text ts s → r ≡ s }
{}

/// The first tokens of a text begin one, as do the first of what begins one. And what begins a text is completed by tokens
/// of some kinds, of which no level counts.
pub fn beginnings()
    ensures of_texts { (text : List ℕ) (ts : List TokenAt) (t : Tree) (n : ℕ) → Parses text ts t → Begins text (take n ts) }
    ensures of_beginnings { (text : List ℕ) (ts : List TokenAt) (n : ℕ) → Begins text ts → Begins text (take n ts) }
    ensures completed { (text : List ℕ) (ts : List TokenAt) → Begins text ts →
        (more : List Terminal) × (t : Tree) × Whole (signs text ts ++ frees more) t }
{}

/// The token that is refused, as unexpected or for its level, is the first one that could be: up to it the tokens begin a
/// text, and behind it they no longer do.
pub fn first_refusal()
    ensures before { (text : List ℕ) (ts : List TokenAt) (at n : ℕ) → IsRefused text ts at → n ≤ at → Begins text (take n ts) }
    ensures behind { (text : List ℕ) (ts : List TokenAt) (at n : ℕ) → IsRefused text ts at → at < n → Begins text (take n ts) → ⊥ }
    ensures one_place { (text : List ℕ) (ts : List TokenAt) (at also : ℕ) → IsRefused text ts at → IsRefused text ts also → at ≡ also }
{}

/// Levels only refuse: a text is one with the same tree where they don't count, and what begins a text does so too.
pub fn levels_only_refuse()
    ensures texts { (text : List ℕ) (ts : List TokenAt) (t : Tree) → Parses text ts t →
        Whole (loose (signs text ts ++ end_sign ∷ [])) t }
    ensures beginnings { (text : List ℕ) (ts : List TokenAt) → Begins text ts → Starts (loose (signs text ts)) }
{}

/// The line of a node is that of its first token. A block without tokens has the line of the one behind it, and a text
/// without tokens the line 1.
pub fn lines_of_nodes()
    ensures of_exps { (d n : ℕ) (x y : List Sign) (t : Tree) → Exp d n x y t → line_of t ≡ line_at x }
    ensures of_stats { (d : ℕ) (x y : List Sign) (t : Tree) (o : Bool) → Stat d x y t o → line_of t ≡ line_at x }
    ensures of_blocks { (d : ℕ) (x y : List Sign) (t : Tree) → Block d x y t → line_of t ≡ line_at x }
    ensures of_texts { (text : List ℕ) (first : TokenAt) (ts : List TokenAt) (t : Tree) →
        Parses text (first ∷ ts) t → line_of t ≡ first.line }
    ensures of_nothing { (text : List ℕ) (t : Tree) → Parses text [] t → line_of t ≡ 1 }
{}
