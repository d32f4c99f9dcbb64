// The resolved program, of what is declared and of the texts that run.

ghost use Rattle.std.specs.Prelude.{◌≡◌, ◌+◌, ◌*◌, List, IfOk, map};
ghost use Rattle.mc_prog.specs.Resolved.{Text as RunningText, bodies_node, bodies_of, cell_words, completed, completed_module, completed_process, data_words, frame_of, literal_words, main_code, text_words};
ghost use Rattle.mc_pieces.specs.Constructs.{construct_of};
ghost use Rattle.mc_types.specs.Assembled.{AreTexts, assembled_of};

use crate::declared::Declared;
use crate::names::NOWHERE;
use crate::placed::Placed;
use crate::texts::{Text, Texts};
use crate::types::words_of;
use mc_pieces::piece::{Construct, Piece};
use mc_prog::program::{
    CellInfo, CodeInfo, Form, ModuleInfo, Node, Parts, ProcessInfo, Program, ProgramParts, Slots,
    TypeInfo,
};
use mc_word::bytes::Memory;
use std::alloc::Global;

// How many words of a workspace an activation is counted for.
fn frame_of(params: u32, locals: u32, nest: u32, arguments: u32) -> Result<u32, Memory>
    ensures { IfOk result (λ n. n ≡ frame_of params locals nest arguments) }
{
    let open = nest.checked_add(1).ok_or(Memory)?;
    let each = arguments.checked_add(6).ok_or(Memory)?;
    let calls = open.checked_mul(each).ok_or(Memory)?;
    let own = params.checked_add(locals).ok_or(Memory)?;
    let all = own.checked_add(calls).ok_or(Memory)?;
    all.checked_add(16).ok_or(Memory)
}

// A procedure, a process or a module's body with its text.
fn completed(placed: &Placed, info: CodeInfo) -> Result<CodeInfo, Memory>
    ensures { IfOk result (λ done. (texts : List RunningText) → AreTexts texts placed.now.texts → done ≡ completed texts info) }
{
    let mut done = info;
    if let Some(text) = placed.at(done.at) {
        done.frame = frame_of(done.params, done.locals, text.nest, text.arguments)?;
        done.body = text.body;
    }
    Ok(done)
}

// A process with its text.
fn completed_process(placed: &Placed, info: ProcessInfo) -> Result<ProcessInfo, Memory>
    ensures { IfOk result (λ done. (texts : List RunningText) → AreTexts texts placed.now.texts → done ≡ completed_process texts info) }
{
    let ProcessInfo {
        code,
        vector,
        vector_at,
    } = info;
    Ok(ProcessInfo {
        code: completed(placed, code)?,
        vector,
        vector_at,
    })
}

// A module with the text of its body.
fn completed_module(placed: &Placed, info: ModuleInfo) -> Result<ModuleInfo, Memory>
    ensures { IfOk result (λ done. (texts : List RunningText) → AreTexts texts placed.now.texts → done ≡ completed_module texts info) }
{
    let ModuleInfo {
        kind,
        priority,
        priority_at,
        outer,
        body,
    } = info;
    Ok(ModuleInfo {
        kind,
        priority,
        priority_at,
        outer,
        body: completed(placed, body)?,
    })
}

// All procedures with their texts.
fn all_completed(
    alloc: Global,
    placed: &Placed,
    codes: Vec<CodeInfo>,
) -> Result<Vec<CodeInfo>, Memory>
    ensures { IfOk result (λ done. (texts : List RunningText) → AreTexts texts placed.now.texts → done.items ≡ map (completed texts) codes.items) }
{
    let mut done = Vec::new(alloc);
    for code in codes {
        done.push(completed(placed, code)?)?;
    }
    Ok(done)
}

// All processes with their texts.
fn all_processes(
    alloc: Global,
    placed: &Placed,
    processes: Vec<ProcessInfo>,
) -> Result<Vec<ProcessInfo>, Memory>
    ensures { IfOk result (λ done. (texts : List RunningText) → AreTexts texts placed.now.texts → done.items ≡ map (completed_process texts) processes.items) }
{
    let mut done = Vec::new(alloc);
    for process in processes {
        done.push(completed_process(placed, process)?)?;
    }
    Ok(done)
}

// All modules with the texts of their bodies.
fn all_modules(
    alloc: Global,
    placed: &Placed,
    modules: Vec<ModuleInfo>,
) -> Result<Vec<ModuleInfo>, Memory>
    ensures { IfOk result (λ done. (texts : List RunningText) → AreTexts texts placed.now.texts → done.items ≡ map (completed_module texts) modules.items) }
{
    let mut done = Vec::new(alloc);
    for module in modules {
        done.push(completed_module(placed, module)?)?;
    }
    Ok(done)
}

// The bodies of modules, in the order in which the main process runs them.
fn bodies_of(alloc: Global, texts: &[Text]) -> Result<Vec<u32>, Memory>
    ensures { IfOk result (λ bodies. bodies.items ≡ bodies_of texts.now) }
{
    let mut bodies = Vec::new(alloc);
    for text in texts {
        if text.is_body {
            bodies.push(text.body)?;
        }
    }
    Ok(bodies)
}

// The node of those bodies.
fn bodies_node(bodies: Vec<u32>) -> Node
    ensures { result ≡ bodies_node bodies.items }
{
    Node {
        place: NOWHERE,
        type_of: None,
        form: Form::Bodies,
        parts: Parts { parts: bodies },
    }
}

// The main process, which runs that node.
fn main_code(alloc: Global, body: u32) -> Result<CodeInfo, Memory>
    ensures { IfOk result (λ code. code ≡ main_code body) }
{
    Ok(CodeInfo {
        at: NOWHERE,
        module: 0,
        params: 0,
        locals: 0,
        frame: frame_of(0, 0, 0, 0)?,
        slots: Slots {
            slots: Vec::new(alloc),
        },
        body,
    })
}

// How many words a variable of a module takes; none where it is a register.
fn cell_words(types: &[TypeInfo], cell: CellInfo) -> u32
    ensures { result ≡ cell_words types.now cell.register cell.type_of }
{
    match cell.register {
        Some(_) => 0,
        None => words_of(types, cell.type_of),
    }
}

// How many words all variables of modules take.
fn data_words(types: &[TypeInfo], cells: &[CellInfo]) -> Result<u32, Memory>
    ensures { IfOk result (λ n. n ≡ data_words types.now cells.now) }
{
    let mut words: u32 = 0;
    for cell in cells {
        words = words.checked_add(cell_words(types, *cell)).ok_or(Memory)?;
    }
    Ok(words)
}

// How many words a piece takes: one for each byte of a text of two or more.
fn literal_words(construct: Construct) -> Result<u32, Memory>
    ensures { IfOk result (λ n. n ≡ literal_words (construct_of construct.entry)) }
{
    match construct {
        Construct::Text(text) if text.as_slice().len() >= 2 => {
            u32::try_from(text.as_slice().len()).map_err(|_| Memory)
        }
        _ => Ok(0),
    }
}

// How many words all texts take.
fn text_words(pieces: &[Piece]) -> Result<u32, Memory>
    ensures { IfOk result (λ n. n ≡ text_words pieces.now) }
{
    let mut words: u32 = 0;
    for piece in pieces {
        words = words
            .checked_add(literal_words(piece.construct())?)
            .ok_or(Memory)?;
    }
    Ok(words)
}

// The size of a program of so many tokens.
fn size_of(
    tokens: u32,
    types: &[TypeInfo],
    cells: &[CellInfo],
    pieces: &[Piece],
) -> Result<u32, Memory>
    ensures { IfOk result (λ n. n ≡ 12 * tokens + data_words types.now cells.now + text_words pieces.now) }
{
    let code = tokens.checked_mul(12).ok_or(Memory)?;
    let data = code.checked_add(data_words(types, cells)?).ok_or(Memory)?;
    data.checked_add(text_words(pieces)?).ok_or(Memory)
}

/// The resolved program of what is declared and of the texts that run, in a source of so many tokens; the pieces are those
/// of the texts.
pub fn assembled(
    alloc: Global,
    declared: Declared,
    texts: Texts,
    tokens: u32,
    pieces: &[Piece],
) -> Result<Program, Memory>
    ensures { IfOk result (λ program. program ≡ assembled_of declared texts tokens pieces.now) }
{
    let of_declared = declared.into_parts();
    let of_texts = texts.into_parts();
    let texts = of_texts.texts.as_slice();
    let placed = Placed::of(alloc, texts)?;
    let bodies = bodies_of(alloc, texts)?;
    let mut nodes = of_texts.nodes;
    let main = u32::try_from(nodes.len()).map_err(|_| Memory)?;
    nodes.push(bodies_node(bodies))?;
    let size = size_of(
        tokens,
        of_declared.types.as_slice(),
        of_declared.cells.as_slice(),
        pieces,
    )?;
    Ok(Program::from_parts(ProgramParts {
        modules: all_modules(alloc, &placed, of_declared.modules)?,
        types: of_declared.types,
        cells: of_declared.cells,
        procedures: all_completed(alloc, &placed, of_declared.procedures)?,
        processes: all_processes(alloc, &placed, of_declared.processes)?,
        nodes,
        main: main_code(alloc, main)?,
        size,
    }))
}
