//! Laws of the lexical rules. Each function does nothing, and its contract is the law.

ghost use Rattle.std.specs.Prelude.{◌≡◌, ◌≤◌, ◌+◌, ◌⊎◌, ℕ, Bool, List, All, length, take, drop};
ghost use Rattle.lua_lexer.specs.declared.token.Token.{Token as TokenOf};
ghost use Rattle.lua_lexer.specs.declared.token.TokenKind.TheVariants.{Numeral};
ghost use Rattle.lua_lexer.specs.declared.lex_error.LexError.{LexError as ErrorOf};
ghost use Rattle.lua_lexer.specs.Brackets.{IsLong};
ghost use Rattle.lua_lexer.specs.Numerals.{IsNumeral, value_as, numeral_value};
ghost use Rattle.lua_lexer.specs.Spells.{Spells, IsQuoted};
ghost use Rattle.lua_lexer.specs.Values.{text_value, without_newline};
ghost use Rattle.lua_lexer.specs.Lexes.{Lexes, LexFails, IsInOrder, IsSpelled, IsOnLine, IsWithinText, place_of};

/// Each text has one list of tokens or one refusal, and not both. The place of a refusal is within the text or at its end.
pub fn one_reading()
    ensures tokens { (text : List ℕ) (ts us : List TokenOf) → Lexes text ts → Lexes text us → ts ≡ us }
    ensures refusals { (text : List ℕ) (d e : ErrorOf) → LexFails text d → LexFails text e → d ≡ e }
    ensures apart { (text : List ℕ) (ts : List TokenOf) (e : ErrorOf) → Lexes text ts → LexFails text e → ⊥ }
    ensures place { (text : List ℕ) (e : ErrorOf) → LexFails text e → place_of e ≤ length text }
    ensures all { (text : List ℕ) → ((ts : List TokenOf) × Lexes text ts) ⊎ ((e : ErrorOf) × LexFails text e) }
{}

/// Tokens stand in order within the text; the bytes of each are a token of its kind, and its line
/// is that of its first byte.
pub fn tokens_of_text()
    ensures order { (text : List ℕ) (ts : List TokenOf) → Lexes text ts → IsInOrder 0 (length text) ts }
    ensures within { (text : List ℕ) (ts : List TokenOf) → Lexes text ts → All (IsWithinText text) ts }
    ensures spelled { (text : List ℕ) (ts : List TokenOf) → Lexes text ts → All (IsSpelled text) ts }
    ensures lines { (text : List ℕ) (ts : List TokenOf) → Lexes text ts → All (IsOnLine text) ts }
{}

/// The value of a text is what stands between its brackets, or what the parts between its quotes stand for.
/// That of a numeral is the number that its digits are, and it is at most 9223372036854775807.
pub fn values_of_tokens()
    ensures quoted { (s : List ℕ) (place : ℕ) (v : List ℕ) → IsQuoted place v s → text_value s ≡ v }
    ensures long { (s : List ℕ) (level n : ℕ) → IsLong level n s → text_value s ≡ without_newline (take n (drop (level + 2) s)) }
    ensures numeral { (s : List ℕ) (hex : Bool) → IsNumeral hex s → numeral_value s ≡ value_as hex s }
    ensures small { (s : List ℕ) → Spells Numeral s → numeral_value s ≤ 9223372036854775807 }
{}
