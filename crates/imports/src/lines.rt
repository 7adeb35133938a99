//! Import lines, from the bindings as the code holds them.

ghost use Rattle.std.specs.Prelude.{◌≡◌, ◌++◌, map, IfOk, vec_items, OnOk};
ghost use Rattle.references.specs.References.{pair_of};
ghost use Rattle.binding.specs.Binding.{binding};
ghost use Rattle.binding.specs.Held.{bindings_of};
ghost use Rattle.imports.specs.Held.{Puts};
ghost use Rattle.imports.specs.Lines.{import', import_lines_of, import_text, imported, start_text};

use binding::{Bindings, text_of};
use paths::append_relative;
use references::Reference;
use std::alloc::{AllocError, Global};
use std::collections::BTreeSet;
use std::mem;

/// The module of what Python knows without an import.
const BUILTINS: &[u8] = b"builtins";

/// Whether a file of the module `own` has to import the target under this name.
fn is_imported(own: &[u8], target: Reference<'_>, name: &[u8]) -> bool
    ensures { result ≡ imported own.now (binding name.now (pair_of target.entry)) }
{
    if target.from == own {
        return false;
    }
    !(target.from == BUILTINS && name == target.name)
}

/// A line up to its names.
fn start_line(heap: Global, base: &[u8], from: &[u8]) -> Result<Vec<u8>, AllocError>
    ensures { IfOk result (λ v. v.items ≡ start_text base.now from.now) }
{
    let mut line = Vec::new(heap);
    line.extend_from_slice(b"from ")?;
    append_relative(&mut line, base, from)?;
    line.extend_from_slice(b" import ")?;
    Ok(line)
}

/// Appends a root, and its name where that is another.
fn append_import(out: &mut Vec<u8>, root: &[u8], name: &[u8]) -> Result<(), AllocError>
    ensures { OnOk result (out.new.items ≡ out.old.items ++ import_text (import' root.now name.now)) }
{
    out.extend_from_slice(root)?;
    if root != name {
        out.extend_from_slice(b" as ")?;
        out.extend_from_slice(name)?;
    }
    Ok(())
}

/// Puts a line that is begun among the others.
fn put_line(lines: &mut BTreeSet<Vec<u8>>, line: Vec<u8>) -> Result<(), AllocError>
    ensures { OnOk result (Puts lines.old line.items lines.new) }
{
    if !line.is_empty() {
        lines.insert(line)?;
    }
    Ok(())
}

/// The lines that import what the entries bind, in order, for a file of the module `own` whose imports count from `base`.
pub fn import_lines(
    heap: Global,
    own: &[u8],
    base: &[u8],
    bindings: Bindings<'_, '_>,
) -> Result<Vec<Vec<u8>>, AllocError>
    ensures { IfOk result (λ v. map vec_items v.items ≡ import_lines_of own.now base.now (bindings_of bindings.entry.pool.now bindings.entry.entries.now)) }
{
    let mut lines = BTreeSet::new(heap);
    let mut line = Vec::new(heap);
    // No entry of the own module is imported, so the first one that is begins a line, and no line yet needs no Option.
    let mut from = own;
    for e in bindings.entries {
        let name = text_of(bindings.pool, e.name);
        if is_imported(own, e.target, name) {
            if from == e.target.from {
                line.extend_from_slice(b", ")?;
            } else {
                let next = start_line(heap, base, e.target.from)?;
                put_line(&mut lines, mem::replace(&mut line, next))?;
                from = e.target.from;
            }
            append_import(&mut line, e.target.name, name)?;
        }
    }
    put_line(&mut lines, line)?;
    lines.into_iter().collect(heap)
}
