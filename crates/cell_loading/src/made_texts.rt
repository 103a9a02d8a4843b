ghost use Rattle.std.specs.Prelude.{◌≡◌, IfOk, map};
ghost use Rattle.cell_load.specs.Views.{view_modules};
ghost use Rattle.cell_loading.specs.LoadFiles.{module_named};
ghost use Rattle.cell_loading.specs.Loaded.{bytes_of, names_in_turn};

use std::alloc::{AllocError, Global};

/// The texts of the modules with these names, in order.
pub fn own_texts(
    alloc: Global,
    modules: &[(String, Vec<u8>)],
    names: &[&str],
) -> Result<Vec<Vec<u8>>, AllocError>
    ensures { IfOk result (λ texts. bytes_of texts.items ≡ map (module_named (view_modules modules.now)) (names_in_turn names.now)) }
{
    let mut texts = Vec::new(alloc);
    for name in names {
        let text = module_named(modules, name);
        texts.push(Vec::from_slice(alloc, text)?)?;
    }
    Ok(texts)
}

/// The text of the module with this name, or an empty one if no module has it.
fn module_named<'a>(modules: &'a [(String, Vec<u8>)], name: &str) -> &'a [u8]
    ensures { result.now ≡ module_named (view_modules modules.now) name.now }
{
    for (key, text) in modules {
        if name == key.as_str() {
            return text.as_slice();
        }
    }
    b""
}
