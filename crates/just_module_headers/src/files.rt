//! The files of a compilation under places.

ghost use Rattle.std.specs.Prelude.{◌≡◌, ◌<◌, Bool, ℕ, IfOk, IsSome, Some, length, slice_get};
ghost use Rattle.std.specs.HashMap.{get};
ghost use Rattle.std.specs.Option.{option_to_list};
ghost use Rattle.just_graph.specs.Building.{EachRow};
ghost use Rattle.just_parts.specs.Asts.{same_ast_key};
ghost use Rattle.just_module_headers.specs.Files.{ArePlaced, AreKeyPlaces, AreRows, HoldsAll, HoldsEach, asts_in, keys_led_to, led_from};
ghost use Rattle.just_module_headers.specs.loops.Files.{AreRowsOf, led_of};

use just_data::Text;
use just_module_contents::is_enabled;
use just_parts::layers::{Ast, Item, Syntax};
use just_paths::Modulepath;
use std::alloc::{AllocError, Global};
use std::collections::HashMap;

/// The files of a compilation, each at a place, what they say, and the places of their keys.
#[derive(Drop)]
pub struct Files<'src, 'a> {
    /// The path of the module and that of the file, of each file.
    pub keys: Vec<&'a (Modulepath, Text)>,
    /// What each file says.
    pub asts: Vec<&'a Ast<'src>>,
    /// The place of each key.
    pub places: HashMap<(Modulepath, Text), usize>,
}

/// What each file imports, and which modules it declares, by the places of the files.
#[derive(Drop)]
pub struct Rows {
    /// The places of the files that each file imports, in order.
    pub imports: Vec<Vec<usize>>,
    /// The places of the own files of the modules that each file declares, in order.
    pub modules: Vec<Vec<usize>>,
}

// The key to which an item of a module's file leads: that of a module where `inside` is set, else that of an import.
fn key_of_item<'src>(
    alloc: Global,
    item: &Item<'src>,
    inside: bool,
    path: &Modulepath,
) -> Result<Option<(Modulepath, Text)>, AllocError>
    ensures { IfOk result (λ key. option_to_list key ≡ keys_led_to inside path.now item.now) }
{
    match (inside, item) {
        (
            true,
            Item::Module {
                name,
                absolute: Some(file),
                ..
            },
        ) => { Ok(Some((path.join(name.lexeme())?, file.clone()?))) }
        (
            false,
            Item::Import {
                absolute: Some(file),
                ..
            },
        ) => { Ok(Some((path.clone()?, file.clone()?))) }
        _ => Ok(None),
    }
}

// The places of the files to which the enabled items of a module's file lead.
fn row<'src, S: Syntax>(
    alloc: Global,
    ast: &Ast<'src>,
    syntax: &S,
    places: &HashMap<(Modulepath, Text), usize>,
    inside: bool,
) -> Result<Vec<usize>, AllocError>
    requires { HoldsAll (get same_ast_key places.now) (led_of inside (S.answers syntax.now).enabled ast.now) }
    ensures { IfOk result (λ row. AreKeyPlaces (get same_ast_key places.now) (led_of inside (S.answers syntax.now).enabled ast.now) row.items) }
{
    let mut row = Vec::new(alloc);
    for item in ast.items.as_slice() {
        if !is_enabled(item, syntax) {
            continue;
        }
        let Some(key) = key_of_item(alloc, item, inside, &ast.module_path)? else {
            continue;
        };
        let Some(place) = places.get(&key) else {
            unreachable!()
        };
        row.push(*place)?;
    }
    Ok(row)
}

impl<'src, 'a> Files<'src, 'a> {
    /// Gives each file a place.
    pub fn new(
        alloc: Global,
        asts: &'a HashMap<(Modulepath, Text), Ast<'src>>,
    ) -> Result<Files<'src, 'a>, AllocError>
        ensures { IfOk result (ArePlaced asts.now.entries) }
    {
        let mut keys = Vec::with_capacity(alloc, asts.len())?;
        let mut lent = Vec::with_capacity(alloc, asts.len())?;
        let mut places = HashMap::new(alloc);
        for (key, ast) in asts {
            let file = Text::from_str(alloc, key.1.as_str())?;
            places.insert((key.0.clone()?, file), keys.len())?;
            keys.push(key)?;
            lent.push(ast)?;
        }
        Ok(Files {
            keys,
            asts: lent,
            places,
        })
    }

    /// What the file at a place says.
    pub fn ast_at(&self, place: usize) -> &Ast<'src>
        requires { place < length self.now.asts.items }
        ensures { slice_get (asts_in self.now) place ≡ Some result.now }
    {
        &*self.asts[place]
    }

    // The rows of all files.
    fn rows_of<S: Syntax>(
        &self,
        alloc: Global,
        syntax: &S,
        inside: bool,
    ) -> Result<Vec<Vec<usize>>, AllocError>
        requires { (p : ℕ) → HoldsAll (get same_ast_key self.now.places) (led_from inside (S.answers syntax.now).enabled (asts_in self.now) p) }
        ensures { IfOk result (λ rows. AreRowsOf inside (S.answers syntax.now).enabled self.now rows.items) }
    {
        let mut rows = Vec::new(alloc);
        for place in 0..self.asts.len() {
            let ast = self.ast_at(place);
            rows.push(row(alloc, ast, syntax, &self.places, inside)?)?;
        }
        Ok(rows)
    }

    /// What each file imports and which modules it declares, by places.
    pub fn rows<S: Syntax>(&self, alloc: Global, syntax: &S) -> Result<Rows, AllocError>
        requires { HoldsEach (S.answers syntax.now).enabled self.now }
        ensures { IfOk result (AreRows (S.answers syntax.now).enabled self.now) }
    {
        Ok(Rows {
            imports: self.rows_of(alloc, syntax, false)?,
            modules: self.rows_of(alloc, syntax, true)?,
        })
    }

    /// The place of the file of a key that is held.
    pub fn place_of(
        &self,
        alloc: Global,
        module_path: &Modulepath,
        file: &str,
    ) -> Result<usize, AllocError>
        requires { IsSome (get same_ast_key self.now.places (module_path.now, file.now)) }
        ensures { IfOk result (λ place. get same_ast_key self.now.places (module_path.now, file.now) ≡ Some place) }
    {
        let key = (module_path.clone()?, Text::from_str(alloc, file)?);
        let Some(place) = self.places.get(&key) else {
            unreachable!()
        };
        Ok(*place)
    }
}
