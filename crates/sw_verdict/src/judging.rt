ghost use Rattle.std.specs.Prelude.{◌≡◌, ◌<◌, ◌≤◌, ◌^◌, ◌∷◌, [], ℕ, List, IfOk, IsErrOf, Err};
ghost use Rattle.std.specs.Prelude.{All, flat_map, length, map, string_bytes};
ghost use Rattle.sw_breach.specs.declared.Breach.{Breach};
ghost use Rattle.sw_isolation_table.specs.Known.{answers_of};
ghost use Rattle.sw_decls.specs.Declaring.{actor_ids};
ghost use Rattle.sw_decls.specs.declared.signature.AsyncDefault.{AsyncDefault};
ghost use Rattle.sw_lower_known.specs.Knowledge.{isolation_of};
ghost use Rattle.sw_lower_rules.specs.Bodies.{Lowered};
ghost use Rattle.sw_parse_decl.specs.Programs.{IsProgramOf};
ghost use Rattle.sw_token.specs.Spelling.{spelling_of};
ghost use Rattle.sw_token.specs.Tokens.{IsTokens};
ghost use Rattle.sw_token.specs.declared.Token.{Token};
ghost use Rattle.sw_tree.specs.CasePlaces.{CasesApart};
ghost use Rattle.sw_tree.specs.Names.{main_actor_id};
ghost use Rattle.sw_typing_rules.specs.Worlds.{world_of};
ghost use Rattle.sw_verdict.specs.ActorNames.{actor_names};
ghost use Rattle.sw_verdict.specs.Decided.{Decided, IsAnalysed, IsMeaning, IsSpelledText};
ghost use Rattle.sw_verdict.specs.Judged.{IsJudged, IsJudgedBySharing, IsNamedGraphOf, IsSharedOf};
ghost use Rattle.sw_verdict.specs.Phases.{Declarations, Encoding, HasProgram, Isolation, Lexis};
ghost use Rattle.sw_verdict.specs.Phases.{Size, Syntax, Types, phases_to_size};
ghost use Rattle.sw_verdict.specs.Verdict.{IsVerdict};

use crate::names::names_of;
use crate::phases::{
    Refusal, declarations, encoding, isolation, lexis, races, sharing, size, syntax, types,
};
use std::alloc::{AllocError, Global};
use sw_breach::Breach;
use sw_decl_words::Placed;
use sw_decls::{AsyncDefault, Decls};
use sw_graph::Graph;
use sw_isolation::{Isolated, race_forms};
use sw_list::ListOf;
use sw_lower::Lowering;
use sw_lower_graph::graph_of;
use sw_text::{MAX_LENGTH, Source};
use sw_token::Token;
use sw_tree::Program;
use sw_typing_table::Typed;

/// A text with its tokens and the program that they spell.
#[derive(Drop)]
pub struct Spelled {
    source: Source,
    tokens: Vec<Token>,
    program: Program,
}

/// The program that a text spells, by the phases up to the syntax. No default counts for these.
fn read(alloc: Global, text: &[u8]) -> Result<Spelled, Refusal>
    requires { length text.now ≤ MAX_LENGTH }
    ensures decided { (rule : AsyncDefault)
        → Decided rule (Encoding ∷ Lexis ∷ Syntax ∷ []) text.now result }
    ensures spelled { IfOk result (IsSpelledText text.now) }
{
    let source = encoding(alloc, text)?;
    let tokens = lexis(alloc, &source)?;
    let program = syntax(alloc, &source, &tokens)?;
    Ok(Spelled {
        source,
        tokens,
        program,
    })
}

/// What is found of a program by the phases up to the size of its functions.
#[derive(Drop)]
pub struct Analysed {
    declared: Decls,
    typed: Typed,
    isolated: Isolated,
    lowering: Lowering,
}

/// Goes through the phases that judge what a text's program means under a default, up to the size
/// of its functions.
fn analyse(alloc: Global, program: &Program, default: AsyncDefault) -> Result<Analysed, Refusal>
    requires small { length program.now.decls < 2 ^ 31 }
    requires spelled { (text : List ℕ) × HasProgram text program.now.decls }
    ensures decided { (text : List ℕ) → HasProgram text program.now.decls
        → Decided default (Declarations ∷ Types ∷ Isolation ∷ Size ∷ []) text result }
    ensures analysed { IfOk result (IsAnalysed default program.now.decls) }
{
    let declared = declarations(alloc, program, default)?;
    let typed = types(alloc, program, &declared)?;
    let isolated = isolation(alloc, program, &declared, &typed)?;
    let lowering = size(alloc, program, &declared, &typed, &isolated)?;
    Ok(Analysed {
        declared,
        typed,
        isolated,
        lowering,
    })
}

/// The program of a text, and what is found of it.
#[derive(Drop)]
pub struct Meaning {
    spelled: Spelled,
    found: Analysed,
}

/// What a text means under a default, by the phases up to the size of functions.
fn meaning_of(alloc: Global, text: &[u8], default: AsyncDefault) -> Result<Meaning, Refusal>
    requires { length text.now ≤ MAX_LENGTH }
    ensures decided { Decided default phases_to_size text.now result }
    ensures meant { IfOk result (IsMeaning default text.now) }
{
    let spelled = read(alloc, text)?;
    let found = analyse(alloc, &spelled.program, default)?;
    Ok(Meaning { spelled, found })
}

/// A graph with the names of its global actors, by number.
#[derive(Drop)]
pub struct NamedGraph {
    pub graph: Graph,
    pub actors: ListOf<String>,
}

/// The graph of a program of which this was found under some default.
fn graph_with_names(
    alloc: Global,
    program: &Program,
    found: Analysed,
) -> Result<NamedGraph, AllocError>
    requires apart { CasesApart program.now.decls }
    requires analysed { (rule : AsyncDefault) × IsAnalysed rule program.now.decls found }
    requires named { All (λ id. id < length program.now.texts)
        (main_actor_id ∷ flat_map actor_ids program.now.decls) }
    ensures graph { IfOk result (λ made. Lowered (world_of found.declared) (answers_of found.typed)
        (isolation_of found.isolated) program.now.decls made.graph) }
    ensures actors { IfOk result (λ made. map string_bytes made.actors
        ≡ actor_names program.now.texts program.now.decls) }
{
    let Analysed {
        declared,
        typed,
        isolated,
        lowering,
    } = found;
    let actors = names_of(alloc, program.names(), declared.actors.as_slice())?;
    let graph = graph_of(alloc, program, declared, &typed, &isolated, lowering)?;
    Ok(NamedGraph { graph, actors })
}

/// What a text shares and may not, and its graph.
#[derive(Drop)]
pub struct Shared {
    shared: ListOf<Placed>,
    made: NamedGraph,
}

/// Looks in a text for values that are shared and may not be, by the phases up to the size of
/// functions.
fn shared_of(alloc: Global, text: &[u8], default: AsyncDefault) -> Result<Shared, Refusal>
    requires { length text.now ≤ MAX_LENGTH }
    ensures found { IfOk result (IsSharedOf default text.now) }
    ensures breached { (breach : Breach) → IsErrOf result (Refusal.Breached breach)
        → IsVerdict default phases_to_size text.now (Err (breach ∷ [])) }
{
    let Meaning { spelled, found } = meaning_of(alloc, text, default)?;
    let shared = race_forms(alloc, &found.declared, &found.typed, &found.isolated)?;
    let made = graph_with_names(alloc, &spelled.program, found)?;
    Ok(Shared { shared, made })
}

/// A text's graph, and all breaches that the last phase by which it is judged finds in it.
#[derive(Drop)]
pub struct Judged {
    pub made: NamedGraph,
    pub races: ListOf<Breach>,
}

/// Judges a text under a default by all phases. One in which a phase before that of races finds a
/// breach has no graph, and is refused for that breach.
pub fn judge(alloc: Global, text: &[u8], default: AsyncDefault) -> Result<Judged, Refusal>
    requires { length text.now ≤ MAX_LENGTH }
    ensures judged { IfOk result (IsJudged default text.now) }
    ensures breached { (breach : Breach) → IsErrOf result (Refusal.Breached breach)
        → IsVerdict default phases_to_size text.now (Err (breach ∷ [])) }
{
    let Shared { shared, made } = shared_of(alloc, text, default)?;
    let races = races(alloc, shared.as_slice(), &made.graph)?;
    Ok(Judged { made, races })
}

/// Judges a text under a default by the phases up to that of sharing. Its regions aren't looked at:
/// nothing is solved.
pub fn judge_sharing(alloc: Global, text: &[u8], default: AsyncDefault) -> Result<Judged, Refusal>
    requires { length text.now ≤ MAX_LENGTH }
    ensures judged { IfOk result (IsJudgedBySharing default text.now) }
    ensures breached { (breach : Breach) → IsErrOf result (Refusal.Breached breach)
        → IsVerdict default phases_to_size text.now (Err (breach ∷ [])) }
{
    let Shared { shared, made } = shared_of(alloc, text, default)?;
    let races = sharing(alloc, shared.as_slice())?;
    Ok(Judged { made, races })
}

/// Judges a text under a default by the phases up to the size of functions: its graph, whatever
/// races that has, or the breach of the first of these phases that finds one.
pub fn lower_text(alloc: Global, text: &[u8], default: AsyncDefault) -> Result<NamedGraph, Refusal>
    requires { length text.now ≤ MAX_LENGTH }
    ensures made { IfOk result (IsNamedGraphOf default text.now) }
    ensures breached { (breach : Breach) → IsErrOf result (Refusal.Breached breach)
        → IsVerdict default phases_to_size text.now (Err (breach ∷ [])) }
{
    let Meaning { spelled, found } = meaning_of(alloc, text, default)?;
    let made = graph_with_names(alloc, &spelled.program, found)?;
    Ok(made)
}
