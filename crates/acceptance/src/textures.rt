// The textures of a scene, from a library.
ghost use Rattle.std.specs.Prelude.{◌≡◌, ◌≤◌, ◌<◌, ◌+◌, ◌&&◌, ◌∷◌, [], nat_lt, nat_le, map, option_map, slice_get, length, IsErrOf, IfOk, OnOk, Ok, Some};
ghost use Rattle.outside.specs.Causes.{Told};
ghost use Rattle.outside.specs.Library.{held_as};
ghost use Rattle.outside.specs.Steps.{AsksFor, Consults};
ghost use Rattle.sl_ast.specs.TreeView.{tree_of};
ghost use Rattle.sl_ast.specs.TypedView.{tree_expr};
ghost use Rattle.acceptance.specs.Answers.{Gives, GivesAlone, as_it_is};
ghost use Rattle.acceptance.specs.Reading.{images_read, names_read, tree_read, with_once};
ghost use Rattle.acceptance.specs.Listed.{HasTable, ListsAll, ListsSome};
ghost use Rattle.acceptance.specs.Textures as spec;
ghost use Rattle.acceptance.specs.declared.refusal.Refusal.TheVariants.{ReadFault};

use crate::read::ReadShader;
use crate::shaders::{UsedShaders, numbered};
use crate::{FaultCode, Refusal, in_texture};
use fixed_math::{List, Names, NoMemory, Text};
use outside::{Fetch, Library};
use sl_ast::{Tree, TreeExpr, Value, Variable};
use sl_look_ups::{LookUp, look_ups};
use std::alloc::Global;
use texture::{Texture, TextureFault, read};

/// The most bytes of a texture's file.
const MOST_BYTES: u64 = 16777216;

/// The most textures of a scene.
const MOST_TEXTURES: usize = 64;

/// The most bytes of the samples of a scene's textures.
const MOST_SAMPLES: u64 = 268435456;

/// The textures of a scene, each once, by first use, and for each use what its shader's look-ups name, in their order: the place of a texture,
/// or nothing where the name is empty.
#[derive(Drop)]
pub struct UsedTextures {
    pub read: List<Texture>,
    pub look_ups: List<List<Option<u32>>>,
}

// The text at that place of the values of parameters.
fn word_at(values: &[Value], place: usize) -> Option<&Text>
    ensures { spec.text_or (option_map (λ t. t.now) result) ≡ spec.text_at values.now place }
{
    match values.get(place) {
        Some(Value::Word(text)) => Some(text),
        _ => None,
    }
}

// The text that names a look-up's texture, where parameters have these values.
fn text_of<'a>(name: &'a TreeExpr, values: &'a [Value]) -> Option<&'a Text>
    ensures { spec.text_or (option_map (λ t. t.now) result) ≡ spec.name_with values.now (tree_expr name.now) }
{
    match name {
        TreeExpr::Word { text, .. } => Some(text),
        TreeExpr::Variable {
            variable: Variable::Level(level),
            ..
        } => word_at(values, *level as usize),
        _ => None,
    }
}

// The same, where it isn't empty.
fn name_of<'a>(name: &'a TreeExpr, values: &'a [Value]) -> Option<&'a Text>
    ensures { option_map (λ t. t.now) result ≡ spec.some_name (spec.name_with values.now (tree_expr name.now)) }
{
    match text_of(name, values) {
        Some(text) if !text.as_str().is_empty() => Some(text),
        _ => None,
    }
}

// The names of textures, each once, in the order in which they are first looked up, and a table of them.
#[derive(Drop)]
struct Listed<'a> {
    table: Names<'a>,
    names: Vec<&'a Text>,
}

// The place of a name, which is listed where it isn't there yet.
fn place_of<'a>(listed: &mut Listed<'a>, name: &'a Text) -> Result<u32, NoMemory>
    requires { HasTable listed.old }
    ensures table { OnOk result (HasTable listed.new) }
    ensures names { OnOk result (listed.new.table ≡ with_once listed.old.table name.now) }
    ensures place { IfOk result (λ place. slice_get listed.new.table place ≡ Some name.now) }
{
    if let Some(place) = listed.table.place_of(name) {
        return numbered(place);
    }
    let place = listed.table.len();
    listed.table.push(name)?;
    listed.names.push(name)?;
    numbered(place)
}

// What a look-up names, by its place.
fn entry_of<'a>(listed: &mut Listed<'a>, name: Option<&'a Text>) -> Result<Option<u32>, NoMemory>
    requires { HasTable listed.old }
    ensures { ListsSome listed.old listed.new (option_map (λ t. t.now) name.entry) result }
{
    match name {
        Some(name) => Ok(Some(place_of(listed, name)?)),
        None => Ok(None),
    }
}

// What these look-ups name.
fn entries_found<'a>(
    alloc: Global,
    listed: &mut Listed<'a>,
    found: &[LookUp<'a>],
    values: &'a [Value],
) -> Result<List<Option<u32>>, NoMemory>
    requires { HasTable listed.old }
    ensures { ListsAll listed.old listed.new (map (λ l. spec.name_with values.now (tree_expr l.name.now)) found.now) result }
{
    let mut entries = Vec::new(alloc);
    for look_up in found {
        let name = name_of(look_up.name, values);
        entries.push(entry_of(listed, name)?)?;
    }
    Ok(List(entries))
}

// What the look-ups of a tree name, where its parameters are bound to these values.
fn entries_of<'a>(
    alloc: Global,
    listed: &mut Listed<'a>,
    tree: &'a Tree,
    values: &'a [Value],
) -> Result<List<Option<u32>>, NoMemory>
    requires { HasTable listed.old }
    ensures { ListsAll listed.old listed.new (spec.names_with (tree_of tree.now) values.now) result }
{
    let found = look_ups(alloc, tree)?;
    entries_found(alloc, listed, &found, values)
}

// What the look-ups of a use name, by the place of its shader.
fn entries_at<'a>(
    alloc: Global,
    listed: &mut Listed<'a>,
    read: &'a [ReadShader],
    place: usize,
    values: &'a [Value],
) -> Result<List<Option<u32>>, NoMemory>
    requires place { place < length read.now }
    requires table { HasTable listed.old }
    ensures { ListsAll listed.old listed.new (spec.names_at (slice_get (map tree_read read.now) place) values.now) result }
{
    entries_of(alloc, listed, &read[place].tree, values)
}

// What the look-ups of all uses name, where their parameters are bound to these values.
fn all_entries<'a>(
    alloc: Global,
    listed: &mut Listed<'a>,
    shaders: &'a UsedShaders,
    bound: &'a [List<Value>],
) -> Result<Vec<List<Option<u32>>>, NoMemory>
    requires placed { spec.ArePlaces shaders.now.of_use (length shaders.now.read) }
    requires bound { length bound.now ≡ length shaders.now.of_use }
    requires none { listed.old.table ≡ [] }
    requires table { HasTable listed.old }
    ensures names { IfOk result (λ _. map (λ t. t.now) listed.new.names.items ≡ spec.texture_names (names_read shaders.now bound.now)) }
    ensures entries { IfOk result (λ ess. ess.items ≡ spec.entries_in (spec.texture_names (names_read shaders.now bound.now)) (names_read shaders.now bound.now)) }
{
    let read = shaders.read.as_slice();
    let of_use = shaders.of_use.as_slice();
    let mut all = Vec::new(alloc);
    for index in 0..of_use.len() {
        let place = of_use[index] as usize;
        let values = bound[index].as_slice();
        all.push(entries_at(alloc, listed, read, place, values)?)?;
    }
    Ok(all)
}

// The texture of a file that isn't too long.
fn of_bytes(alloc: Global, name: &Text, bytes: &[u8]) -> Result<Texture, Refusal>
    requires { length bytes.now ≤ 16777216 }
    ensures { GivesAlone as_it_is result (spec.image_of_held name.now (Some bytes.now)) }
{
    match read(alloc, bytes) {
        Ok(texture) => Ok(texture),
        Err(TextureFault::X1) => Err(in_texture(alloc, name, FaultCode::X1)),
        Err(TextureFault::M11) => Err(in_texture(alloc, name, FaultCode::M11)),
        Err(TextureFault::NoMemory) => Err(Refusal::NoMemory),
    }
}

// Fetches a texture.
fn fetch_texture<L: Library>(
    alloc: Global,
    library: &mut L,
    name: &Text,
) -> Result<Texture, Refusal>
    ensures library { AsksFor L.held L.asked L.faults library.old library.new (name.now ∷ []) result (IsErrOf result ReadFault) }
    ensures gives { Told (L.held library.old) (λ files. Gives as_it_is result (spec.image_of_held name.now (held_as files name.now))) }
{
    let mut bytes = Vec::new(alloc);
    match library.fetch(name.as_str(), MOST_BYTES, &mut bytes) {
        Fetch::Whole => of_bytes(alloc, name, &bytes),
        Fetch::Missing => Err(Refusal::Missing(name.copied(alloc)?)),
        Fetch::TooLong => Err(in_texture(alloc, name, FaultCode::M10)),
        Fetch::Failed => Err(Refusal::ReadFault),
        Fetch::NoMemory => Err(Refusal::NoMemory),
    }
}

// Textures that are fetched, and the bytes of their samples.
#[derive(Drop)]
struct Fetched {
    textures: Vec<Texture>,
    bytes: u64,
    ghost counted: { bytes ≡ spec.samples_of textures.items },
    ghost few: { bytes ≤ 268435456 },
}

// Whether one texture more, whose samples have so many bytes, makes the textures neither too many nor too large.
fn has_room(all: &Fetched, bytes: u64) -> bool
    ensures { result ≡ (nat_lt (length all.now.textures.items) 64 && nat_le (all.now.bytes + bytes) 268435456) }
{
    all.textures.len() < MOST_TEXTURES && bytes <= MOST_SAMPLES - all.bytes
}

// Puts a texture behind others, where they aren't too many and too large with it.
fn put_behind(
    alloc: Global,
    name: &Text,
    all: &mut Fetched,
    texture: Texture,
) -> Result<(), Refusal>
    ensures { GivesAlone (λ _. all.new.textures.items) result (spec.with_image name.now all.old.textures.items (Ok texture)) }
{
    let bytes = texture.sample_bytes();
    if !has_room(all, bytes) {
        return Err(in_texture(alloc, name, FaultCode::M12));
    }
    all.textures.push(texture)?;
    all.bytes += bytes;
    Ok(())
}

// Fetches a texture and puts it behind others.
fn fetch_next<L: Library>(
    alloc: Global,
    library: &mut L,
    name: &Text,
    all: &mut Fetched,
) -> Result<(), Refusal>
    ensures library { AsksFor L.held L.asked L.faults library.old library.new (name.now ∷ []) result (IsErrOf result ReadFault) }
    ensures gives { Told (L.held library.old) (λ files. Gives (λ _. all.new.textures.items) result (spec.image_behind files all.old.textures.items name.now)) }
{
    let texture = fetch_texture(alloc, library, name)?;
    put_behind(alloc, name, all, texture)
}

// Fetches the textures of these names, up to the first that is refused.
fn fetch_all<L: Library>(
    alloc: Global,
    library: &mut L,
    names: &[&Text],
) -> Result<Vec<Texture>, Refusal>
    ensures library { Consults L.held L.asked L.faults library.old library.new (λ files. spec.textures_asked files (map (λ t. t.now) names.now)) (IsErrOf result ReadFault) }
    ensures gives { Told (L.held library.old) (λ files. Gives (λ ts. ts.items) result (spec.images_of files (map (λ t. t.now) names.now))) }
{
    let mut all = Fetched {
        textures: Vec::new(alloc),
        bytes: 0,
    };
    for name in names {
        fetch_next(alloc, library, name, &mut all)?;
    }
    Ok(all.textures)
}

/// Fetches the textures that the look-ups of a scene's uses name, each once, by first use, up to the first that is refused.
pub(crate) fn fetch_used<L: Library>(
    alloc: Global,
    library: &mut L,
    shaders: &UsedShaders,
    bound: &[List<Value>],
) -> Result<UsedTextures, Refusal>
    requires placed { spec.ArePlaces shaders.now.of_use (length shaders.now.read) }
    requires bound { length bound.now ≡ length shaders.now.of_use }
    ensures library { Consults L.held L.asked L.faults library.old library.new (λ files. spec.textures_asked files (spec.texture_names (names_read shaders.now bound.now))) (IsErrOf result ReadFault) }
    ensures gives { Told (L.held library.old) (λ files. Gives images_read result (spec.images_of files (spec.texture_names (names_read shaders.now bound.now)))) }
    ensures entries { IfOk result (λ t. t.look_ups ≡ spec.entries_in (spec.texture_names (names_read shaders.now bound.now)) (names_read shaders.now bound.now)) }
{
    let mut listed = Listed {
        table: Names::new(alloc),
        names: Vec::new(alloc),
    };
    let look_ups = all_entries(alloc, &mut listed, shaders, bound)?;
    let read = fetch_all(alloc, library, listed.names.as_slice())?;
    Ok(UsedTextures {
        read: List(read),
        look_ups: List(look_ups),
    })
}
