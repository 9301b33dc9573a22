//! The large input: declared objects with a number each, and a script that adds these up through their proxies.

ghost use Rattle.std.specs.Prelude.{◌≡◌, ◌≤◌, ◌++◌, IfOk, OnOk, flat_map, string_bytes};
ghost use Rattle.rp_gen.specs.Large.{below, declarations, names, object_lines, quoted_name, script, sum_line};

use rp_base::Memory;
use std::alloc::{AllocError, Global};

/// The declarations and the script of the large input with this many objects, from 1 to 10,000. It is refused only for
/// want of memory.
pub fn large(alloc: Global, size: u32) -> Result<(String, String), Memory>
    requires some { 1 ≤ size }
    requires most { size ≤ 10000 }
    ensures declared { IfOk result (λ texts. string_bytes texts.0 ≡ declarations size) }
    ensures run { IfOk result (λ texts. string_bytes texts.1 ≡ script size) }
{
    let declarations = make_declarations(alloc, size)?;
    Ok((declarations, make_script(alloc, size)?))
}

fn make_declarations(alloc: Global, size: u32) -> Result<String, AllocError>
    requires { 1 ≤ size }
    ensures { IfOk result (λ text. string_bytes text ≡ declarations size) }
{
    let mut text = String::from_str(
        alloc,
        "version = 1\npermissions = [\"zope.View\"]\nexpose = [",
    )?;
    add_names(&mut text, size)?;
    text.push_str(
        "]\n[class.Item]\nget = { n = \"zope.View\" }\n[principal.p]\nallow = [\"zope.View\"]\n",
    )?;
    add_objects(&mut text, size)?;
    Ok(text)
}

fn make_script(alloc: Global, size: u32) -> Result<String, AllocError>
    ensures { IfOk result (λ text. string_bytes text ≡ script size) }
{
    let mut text = String::from_str(alloc, "t = 0\n")?;
    add_sums(&mut text, size)?;
    text.push_str("print(t)\n")?;
    Ok(text)
}

/// Appends the names of the objects, quoted and joined by commas.
fn add_names(text: &mut String, size: u32) -> Result<(), AllocError>
    requires { 1 ≤ size }
    ensures { OnOk result (string_bytes text.new ≡ string_bytes text.old ++ names size) }
{
    add_name(text, 0)?;
    'names: for i in 1..size {
        text.push_str(", ")?;
        add_name(text, i)?;
    }
    Ok(())
}

fn add_name(text: &mut String, i: u32) -> Result<(), AllocError>
    ensures { OnOk result (string_bytes text.new ≡ string_bytes text.old ++ quoted_name i) }
{
    write!(text, "\"o{i}\"")
}

/// Appends the lines that declare the objects.
fn add_objects(text: &mut String, size: u32) -> Result<(), AllocError>
    ensures { OnOk result (string_bytes text.new ≡ string_bytes text.old ++ flat_map object_lines (below size)) }
{
    'objects: for i in 0..size {
        add_object(text, i)?;
    }
    Ok(())
}

fn add_object(text: &mut String, i: u32) -> Result<(), AllocError>
    ensures { OnOk result (string_bytes text.new ≡ string_bytes text.old ++ object_lines i) }
{
    write!(
        text,
        "[object.o{i}]\nclass = \"Item\"\nfields = {{ n = {i} }}\n"
    )
}

/// Appends the lines that add up the numbers.
fn add_sums(text: &mut String, size: u32) -> Result<(), AllocError>
    ensures { OnOk result (string_bytes text.new ≡ string_bytes text.old ++ flat_map sum_line (below size)) }
{
    'sums: for i in 0..size {
        add_sum(text, i)?;
    }
    Ok(())
}

fn add_sum(text: &mut String, i: u32) -> Result<(), AllocError>
    ensures { OnOk result (string_bytes text.new ≡ string_bytes text.old ++ sum_line i) }
{
    write!(text, "t += o{i}.n\n")
}
