//! Texts that load.

ghost use Rattle.std.specs.Prelude.{◌≡◌, ◌<◌, ◌≤◌, ℕ, List, length, IfOk, IfErr};
ghost use Rattle.lua_lexer.specs.Lexes.{Lexes};
ghost use Rattle.lua_ast.specs.Once.{IsEachOnce};
ghost use Rattle.lua_ast.specs.Numbered.{IsNumbered};
ghost use Rattle.lua_parser.specs.Parsing.{tree_of};
ghost use Rattle.lua_scope.specs.Loads.{most_text, HasTokensOf, Loads, LoadsAs, IsLoadFailure};
ghost use Rattle.lua_scope.specs.OfChunk.{occurrences_of};
ghost use Rattle.lua_scope.specs.declared.occurrence.Occurrence.{Occurrence as OccurrenceOf};
ghost use Rattle.lua_scope.specs.declared.occurrence.Occurrence.TheVariants as occurrence;
ghost use Rattle.lua_scope.specs.Scope.{declared, first_variable};
ghost use Rattle.lua_scope.specs.Variables.{meaning, place_by, place_of_name, is_captured as is_captured_in, captured_by};
ghost use Rattle.lua_scope.specs.Meets.{Meets};

use crate::load_error::{LoadError, of_lex, of_parse};
use crate::place::Place;
use crate::run::resolve;
use crate::tables::Tables;
use lua_ast::{Chunk, NodeId};
use lua_lexer::{Token, lex};
use lua_parser::parse;
use std::alloc::Global;
use std::marker::Model;

/// The greatest number of bytes of a text.
pub const MOST_TEXT: usize = 1_048_576;

/// A text that loads, with its nodes and what its names mean.
#[derive(Debug, Drop)]
pub struct Parsed {
    text: Vec<u8>,
    chunk: Chunk,
    tables: Tables,
}

impl Model for Parsed {
    ghost use Rattle.lua_scope.specs.Loads.{Program, LoadsAs};
    ghost use Rattle.lua_parser.specs.Parsing.{tree_of};
    ghost use Rattle.std.specs.Prelude.{length};
    ghost use Rattle.lua_ast.specs.Once.{IsEachOnce};
    ghost use Rattle.lua_ast.specs.Numbered.{IsNumbered};
    ghost use Rattle.lua_scope.specs.OfChunk.{occurrences_of};
    ghost use Rattle.lua_scope.specs.Resolved.{TablesAre};

    ghost Value = { Program };

    ghost view = { λ p. record { text = p.text.items; chunk = p.chunk } };

    ghost invariant = { λ p. LoadsAs p.text.items (tree_of p.chunk) × IsEachOnce p.chunk
        × TablesAre (length p.chunk.nodes) p.tables (occurrences_of p.chunk) × IsNumbered p.chunk };
}

/// The tokens of a text.
fn tokens_of(alloc: Global, text: &[u8]) -> Result<Vec<Token>, LoadError>
    requires { length text.now ≤ most_text }
    ensures tokens { IfOk result (λ tokens. Lexes text.now tokens.items) }
    ensures fails { IfErr result (λ error. IsLoadFailure text.now error) }
{
    match lex(alloc, text) {
        Ok(tokens) => Ok(tokens),
        Err(error) => Err(of_lex(error)),
    }
}

/// The chunk of a text.
fn chunk_of(alloc: Global, text: &[u8]) -> Result<Chunk, LoadError>
    requires { length text.now ≤ most_text }
    ensures chunk { IfOk result (λ chunk. HasTokensOf text.now (tree_of chunk)) }
    ensures once { IfOk result (λ chunk. IsEachOnce chunk) }
    ensures numbered { IfOk result (λ chunk. IsNumbered chunk) }
    ensures fails { IfErr result (λ error. IsLoadFailure text.now error) }
{
    let tokens = tokens_of(alloc, text)?;
    match parse(alloc, text, tokens.as_slice()) {
        Ok(chunk) => Ok(chunk),
        Err(error) => Err(of_parse(error)),
    }
}

/// Reads the text of a channel program: its tokens, its tree, and what its names and labels mean.
/// It is refused exactly where it does not load, with the first refusal.
pub fn load(alloc: Global, text: Vec<u8>) -> Result<Parsed, LoadError>
    ensures text { IfOk result (λ parsed. parsed.text ≡ text.items) }
    ensures tree { IfOk result (λ parsed. LoadsAs text.items (tree_of parsed.chunk)) }
    ensures once { IfOk result (λ parsed. IsEachOnce parsed.chunk) }
    ensures numbered { IfOk result (λ parsed. IsNumbered parsed.chunk) }
    ensures loads { IfOk result (λ _. Loads text.items) }
    ensures fails { IfErr result (λ error. IsLoadFailure text.items error) }
{
    let bytes = text.as_slice();
    if bytes.len() > MOST_TEXT {
        return Err(LoadError::TextTooLong(bytes.len() as u64));
    }
    let chunk = chunk_of(alloc, bytes)?;
    let tables = resolve(alloc, &chunk)?;
    Ok(Parsed {
        text,
        chunk,
        tables,
    })
}

impl Parsed {
    /// The text.
    pub fn text(&self) -> &[u8]
        ensures text { result.now ≡ self.now.text }
        ensures loads { LoadsAs self.now.text (tree_of self.now.chunk) }
    {
        self.text.as_slice()
    }

    /// The nodes of the text's tree, in which each of them stands once, numbered in the order of
    /// the text: each after its parts, the root last.
    pub fn chunk(&self) -> &Chunk
        ensures chunk { result.now ≡ self.now.chunk }
        ensures loads { LoadsAs self.now.text (tree_of self.now.chunk) }
        ensures once { IsEachOnce self.now.chunk }
        ensures numbered { IsNumbered self.now.chunk }
    {
        &self.chunk
    }

    /// How many variables the text names.
    pub fn variables(&self) -> u32
        ensures { result ≡ declared (occurrences_of self.now.chunk) }
    {
        self.tables.declared
    }

    /// What a Name node stands for: what its name means where the text has it. For any other node
    /// the answer is `Global`.
    pub fn place(&self, id: NodeId) -> Place
        requires { id < length self.now.chunk.nodes }
        ensures place { result ≡ place_of_name (occurrences_of self.now.chunk) id }
        ensures there { (name : List ℕ) (before : List OccurrenceOf) →
            Meets (occurrences_of self.now.chunk) before (occurrence.Use id name) →
            result ≡ place_by (occurrences_of self.now.chunk) (meaning before name) }
    {
        match self.tables.meanings[id.index()] {
            None => Place::Global,
            Some(variable) => {
                if self.is_captured(variable) {
                    Place::Captured(variable)
                } else {
                    Place::Local(variable)
                }
            }
        }
    }

    /// The variables that a Function node captures: those named before its own that it or a
    /// function in it uses, rising.
    pub fn captured(&self, id: NodeId) -> &[u32]
        requires { id < length self.now.chunk.nodes }
        ensures { result.now ≡ captured_by (occurrences_of self.now.chunk) id }
    {
        self.tables.captured[id.index()].as_slice()
    }

    /// The number of the first variable that a node names; the others follow it in order. For a
    /// function without parameters it is how many were named before it, for a node that declares
    /// nothing 0.
    pub fn first_variable(&self, id: NodeId) -> u32
        requires { id < length self.now.chunk.nodes }
        ensures number { result ≡ first_variable (occurrences_of self.now.chunk) id }
        ensures there { (count : ℕ) (before : List OccurrenceOf) →
            Meets (occurrences_of self.now.chunk) before (occurrence.Declare id count) →
            result ≡ declared before }
    {
        self.tables.first[id.index()]
    }

    /// Whether some function captures the variable.
    pub fn is_captured(&self, variable: u32) -> bool
        ensures { result ≡ is_captured_in (occurrences_of self.now.chunk) variable }
    {
        self.tables
            .is_captured
            .get(variable as usize)
            .copied()
            .unwrap_or(false)
    }
}
