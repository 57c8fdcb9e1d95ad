//! Names of data types, fields and methods, each by number from 1.

ghost use Rattle.std.specs.Prelude.{◌≡◌, ◌++◌, OnOk};
ghost use Rattle.std.specs.Option.{option_copied};
ghost use Rattle.std.specs.String.{string_bytes};
ghost use Rattle.hs_print.specs.Formula.{numbered};
ghost use Rattle.hs_core_text.specs.Text.{field_name, kind_name, method_name};

use hs_core::{Method, Program};
use hs_heap::{Defs, NodeDef};
use hs_text::Text;
use std::alloc::AllocError;

fn node_of(defs: &Defs, k: u32) -> Option<&NodeDef>
    ensures { option_copied result ≡ numbered defs.now.nodes k }
{
    if k == 0 {
        return None;
    }
    defs.nodes.get(k as usize - 1)
}

fn field_of(node: &NodeDef, k: u32) -> Option<&(Text, Option<u32>)>
    ensures { option_copied result ≡ numbered node.now.fields k }
{
    if k == 0 {
        return None;
    }
    node.fields.get(k as usize - 1)
}

fn method_of(program: &Program, k: u32) -> Option<&Method>
    ensures { option_copied result ≡ numbered program.now.methods k }
{
    if k == 0 {
        return None;
    }
    program.methods.get(k as usize - 1)
}

// Adds the name of a data type.
pub fn push_kind(out: &mut String, defs: &Defs, kind: u32) -> Result<(), AllocError>
    ensures { OnOk result (string_bytes out.new ≡ string_bytes out.old ++ kind_name defs.now kind) }
{
    match node_of(defs, kind) {
        Some(node) => {
            let name = &node.name;
            write!(out, "{name}")
        }
        None => Ok(()),
    }
}

fn push_field_of(out: &mut String, node: &NodeDef, field: u32) -> Result<(), AllocError>
    ensures { OnOk result (string_bytes out.new ≡ string_bytes out.old ++ field_name (Some node.now) field) }
{
    match field_of(node, field) {
        Some(field) => {
            let name = &field.0;
            write!(out, "{name}")
        }
        None => Ok(()),
    }
}

// Adds the name of a field.
pub fn push_field(out: &mut String, defs: &Defs, kind: u32, field: u32) -> Result<(), AllocError>
    ensures { OnOk result (string_bytes out.new ≡ string_bytes out.old ++ field_name (numbered defs.now.nodes kind) field) }
{
    match node_of(defs, kind) {
        Some(node) => push_field_of(out, node, field),
        None => Ok(()),
    }
}

// Adds the name of a method.
pub fn push_method_name(out: &mut String, program: &Program, k: u32) -> Result<(), AllocError>
    ensures { OnOk result (string_bytes out.new ≡ string_bytes out.old ++ method_name program.now k) }
{
    match method_of(program, k) {
        Some(method) => {
            let name = &method.name;
            write!(out, "{name}")
        }
        None => Ok(()),
    }
}
