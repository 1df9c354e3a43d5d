// The shaders of a scene, from a library or the stock.
ghost use Rattle.std.specs.Prelude.{◌≡◌, ◌≤◌, ◌∷◌, ◌++◌, [], IsErrOf, OnOk, OnErr, IfOk, Some, None, map, length, option_map, true, false, slice_get};
ghost use Rattle.outside.specs.Causes.{Told};
ghost use Rattle.outside.specs.Library.{held_as};
ghost use Rattle.outside.specs.Asked.{AsksAll};
ghost use Rattle.outside.specs.Steps.{AsksFor, Consults};
ghost use Rattle.sl_ast.specs.ShaderView.{shader_of};
ghost use Rattle.sl_ast.specs.Settled.{IsSettled};
ghost use Rattle.sl_ast.specs.TreeView.{tree_of};
ghost use Rattle.sl_parser.specs.Files.{parsed};
ghost use Rattle.sl_types.specs.Checked.{checked};
ghost use Rattle.sl_types.specs.Distinct.{are_distinct};
ghost use Rattle.acceptance.specs.RequestFit.{declared_names};
ghost use Rattle.acceptance.specs.Shaders.{file_of, stock_text, tree_in_rows, tree_of_checked, tree_of_parsed, tree_of_bytes, shader_names, shaders_asked};
ghost use Rattle.acceptance.specs.Reading.{GivesShaderText, GivesTree, ReadsShader, ReadsNext, ReadsShaders, AreUsed, is_among, file_once, with_once, name_of};
ghost use Rattle.acceptance.specs.declared.refusal.Refusal.TheVariants.{ReadFault};

use crate::read::ReadShader;
use crate::{FaultCode, Refusal, in_shader, of_syntax, of_type};
use fixed_math::{List, Names, NoMemory, Text};
use outside::{Fetch, Library};
use scene_state::ShaderUse;
use sl_ast::Tree;
use sl_look_ups::binding_params;
use sl_parser::{SlFault, parse};
use sl_types::check;
use sl_typing::TypeFault;
use std::alloc::Global;
use uniform_varying::rows;

/// The most bytes of a shader's file.
const MOST_BYTES: u64 = 1048576;

/// The most rows of registers that the code of a shader takes.
const MOST_ROWS: u64 = 4096;

/// The shaders of a scene, each once, by first use, and beside each use the place of its shader.
#[derive(Drop)]
pub struct UsedShaders {
    pub read: List<ReadShader>,
    pub of_use: List<u32>,
}

// A typed tree whose code takes no more rows than there may be.
fn in_rows(alloc: Global, name: &Text, tree: Tree) -> Result<Tree, Refusal>
    requires settled { IsSettled (tree_of tree) }
    requires distinct { are_distinct (declared_names (tree_of tree)) ≡ true }
    ensures { GivesTree result (tree_in_rows name.now (tree_of tree)) }
{
    if MOST_ROWS < rows(alloc, &tree)? {
        return Err(in_shader(alloc, name, FaultCode::M9, tree.place.line));
    }
    Ok(tree)
}

// The typed tree of an untyped one.
fn typed(alloc: Global, name: &Text, shader: &sl_ast::Shader) -> Result<Tree, Refusal>
    ensures { GivesTree result (tree_of_checked name.now (checked (shader_of shader.now))) }
{
    match check(alloc, shader) {
        Ok(tree) => in_rows(alloc, name, tree),
        Err(TypeFault::At { code, line }) => Err(in_shader(alloc, name, of_type(code), line)),
        Err(TypeFault::NoMemory) => Err(Refusal::NoMemory),
    }
}

// The typed tree of a text that isn't too long.
fn of_text(alloc: Global, name: &Text, text: &[u8]) -> Result<Tree, Refusal>
    requires { length text.now ≤ 1048576 }
    ensures { GivesTree result (tree_of_parsed name.now (parsed text.now)) }
{
    match parse(alloc, text) {
        Ok(shader) => typed(alloc, name, &shader),
        Err(SlFault::At { code, line }) => Err(in_shader(alloc, name, of_syntax(code), line)),
        Err(SlFault::NoMemory) => Err(Refusal::NoMemory),
    }
}

// The typed tree of a text.
fn of_bytes(alloc: Global, name: &Text, bytes: &[u8]) -> Result<Tree, Refusal>
    ensures { GivesTree result (tree_of_bytes name.now bytes.now) }
{
    if MOST_BYTES < bytes.len() as u64 {
        return Err(in_shader(alloc, name, FaultCode::M10, 1));
    }
    of_text(alloc, name, bytes)
}

#[tactic(auto, unfolding(crate::specs::Shaders::stock_text))]
fn stock_text(name: &str) -> Option<&'static str>
    ensures { option_map (λ t. t.now) result ≡ stock_text name.now }
{
    stock::text(name)
}

// The stock's text of a shader whose file isn't there.
fn of_stock(alloc: Global, name: &Text, file: Text) -> Result<Vec<u8>, Refusal>
    requires { file ≡ file_of name.now }
    ensures gives { GivesShaderText name.now None result }
    ensures read { IsErrOf result ReadFault → ⊥ }
{
    match stock_text(name.as_str()) {
        Some(text) => Ok(Vec::from_slice(alloc, text.as_bytes())?),
        None => Err(Refusal::Missing(file)),
    }
}

// The file of a shader.
#[tactic(auto, using(crate::proofs::FileNames::file_is_ascii))]
fn file_of(alloc: Global, name: &Text) -> Result<Text, NoMemory>
    ensures { IfOk result (λ f. f ≡ file_of name.now) }
{
    let name = name.as_str();
    let file = format!(in alloc; "{name}.sl")?;
    Text::from_bytes(alloc, file.as_bytes())
}

// The text of a shader: its file's, or the stock's.
fn fetch_text<L: Library>(alloc: Global, library: &mut L, name: &Text) -> Result<Vec<u8>, Refusal>
    ensures library { AsksFor L.held L.asked L.faults library.old library.new (file_of name.now ∷ []) result (IsErrOf result ReadFault) }
    ensures gives { Told (L.held library.old) (λ files. GivesShaderText name.now (held_as files (file_of name.now)) result) }
{
    let file = file_of(alloc, name)?;
    let mut bytes = Vec::new(alloc);
    match library.fetch(file.as_str(), MOST_BYTES, &mut bytes) {
        Fetch::Whole => Ok(bytes),
        Fetch::Missing => of_stock(alloc, name, file),
        Fetch::TooLong => Err(in_shader(alloc, name, FaultCode::M10, 1)),
        Fetch::Failed => Err(Refusal::ReadFault),
        Fetch::NoMemory => Err(Refusal::NoMemory),
    }
}

// Reads the shader of a name.
fn read_shader<L: Library>(
    alloc: Global,
    library: &mut L,
    name: &Text,
) -> Result<ReadShader, Refusal>
    ensures library { AsksFor L.held L.asked L.faults library.old library.new (file_of name.now ∷ []) result (IsErrOf result ReadFault) }
    ensures name { IfOk result (λ s. s.name ≡ name.now) }
    ensures reads { Told (L.held library.old) (λ files. ReadsShader files name.now result) }
{
    let named = name.copied(alloc)?;
    let text = fetch_text(alloc, library, name)?;
    let tree = of_bytes(alloc, name, &text)?;
    let binding = binding_params(alloc, &tree)?;
    Ok(ReadShader {
        name: named,
        tree,
        binding: List(binding),
    })
}

// Reads the shader of a name behind those that are read, whose names are in the table too.
fn read_next<'a, L: Library>(
    alloc: Global,
    library: &mut L,
    names: &mut Names<'a>,
    shaders: &mut Vec<ReadShader>,
    name: &'a Text,
) -> Result<(), Refusal>
    requires { names.old ≡ map name_of shaders.old.items }
    ensures table { OnOk result (names.new ≡ map name_of shaders.new.items) }
    ensures library { AsksFor L.held L.asked L.faults library.old library.new (file_of name.now ∷ []) result (IsErrOf result ReadFault) }
    ensures name { OnOk result (map name_of shaders.new.items ≡ map name_of shaders.old.items ++ name.now ∷ []) }
    ensures reads { Told (L.held library.old) (λ files. ReadsNext files name.now shaders.old.items shaders.new.items result) }
{
    names.push(name)?;
    let read = read_shader(alloc, library, name)?;
    shaders.push(read)?;
    Ok(())
}

// The same, but where the shader of that name is read already; gives the shader's place.
fn read_once<'a, L: Library>(
    alloc: Global,
    library: &mut L,
    names: &mut Names<'a>,
    shaders: &mut Vec<ReadShader>,
    name: &'a Text,
) -> Result<usize, Refusal>
    requires { names.old ≡ map name_of shaders.old.items }
    ensures table { OnOk result (names.new ≡ map name_of shaders.new.items) }
    ensures place { IfOk result (λ p. slice_get (map name_of shaders.new.items) p ≡ Some name.now) }
    ensures library { AsksFor L.held L.asked L.faults library.old library.new (file_once (map name_of shaders.old.items) name.now) result (IsErrOf result ReadFault) }
    ensures name { OnOk result (map name_of shaders.new.items ≡ with_once (map name_of shaders.old.items) name.now) }
    ensures unread { OnErr result (is_among name.now (map name_of shaders.old.items) ≡ false) }
    ensures reads { Told (L.held library.old) (λ files. ReadsNext files name.now shaders.old.items shaders.new.items result) }
{
    match names.place_of(name) {
        Some(place) => Ok(place),
        None => {
            let place = names.len();
            read_next(alloc, library, names, shaders, name)?;
            Ok(place)
        }
    }
}

// A place as a set of shaders holds it. Where there is none of so great a number, want of memory.
pub(crate) fn numbered(place: usize) -> Result<u32, NoMemory>
    ensures { IfOk result (λ n. n ≡ place) }
{
    match u32::try_from(place) {
        Ok(number) => Ok(number),
        Err(_) => Err(NoMemory),
    }
}

// Puts a shader's place behind those of the uses before.
fn note_place(of_use: &mut Vec<u32>, place: usize) -> Result<(), NoMemory>
    ensures { OnOk result (of_use.new.items ≡ of_use.old.items ++ place ∷ []) }
{
    let number = numbered(place)?;
    of_use.push(number)?;
    Ok(())
}

/// Reads the shaders of a scene by first use, each once, up to the first that is refused.
pub(crate) fn read_shaders<L: Library>(
    alloc: Global,
    library: &mut L,
    uses: &[ShaderUse],
) -> Result<UsedShaders, Refusal>
    ensures library { Consults L.held L.asked L.faults library.old library.new (λ files. shaders_asked files (shader_names uses.now)) (IsErrOf result ReadFault) }
    ensures asked_all { OnOk result (Told (L.held library.old) (λ files. AsksAll (shaders_asked files (shader_names uses.now)) (L.asked library.old) (L.asked library.new))) }
    ensures used { IfOk result (AreUsed uses.now) }
    ensures reads { Told (L.held library.old) (λ files. ReadsShaders files (shader_names uses.now) result) }
{
    let mut names = Names::new(alloc);
    let mut shaders = Vec::new(alloc);
    let mut of_use = Vec::new(alloc);
    for shader in uses {
        let place = read_once(alloc, library, &mut names, &mut shaders, &shader.name)?;
        note_place(&mut of_use, place)?;
    }
    Ok(UsedShaders {
        read: List(shaders),
        of_use: List(of_use),
    })
}
