//! The names that begin with a prefix, each once, in the order of their octets.
ghost use Rattle.std.specs.Prelude.{◌≡◌, [], nat_eq, map, string_bytes, IfOk, OnOk};
ghost use Rattle.std.specs.List.{starts_with};
ghost use Rattle.std.specs.List.Sorted.{IsStrictlySortedBy};
ghost use Rattle.std.specs.String.{string_cmp};
ghost use Rattle.janus_syntax.specs.Spelling.{keyword_text};
ghost use Rattle.kernel_text.specs.NameSets.{with_name};
ghost use Rattle.kernel_ask.specs.Added.{with_match, with_matches};
ghost use Rattle.kernel_text.specs.Procedures.{procedure_names};
ghost use Rattle.kernel_ask.specs.Matches.{names_of, AreMatches};
ghost use Rattle.kernel_text.specs.Defined.{in_a_row};

use janus_syntax::token::{KEYWORDS, Keyword};
use janus_syntax::tree::Procedure;
use kernel_text::View;
use std::alloc::{AllocError, Global};
use std::collections::BTreeSet;
use std::sync::ledger::Ledger;

/// Adds a name, unless it is there.
fn add(names: &mut BTreeSet<String>, name: String) -> Result<(), AllocError>
    ensures { OnOk result (map string_bytes names.new.keys
        ≡ with_name (map string_bytes names.old.keys) (string_bytes name)) }
{
    names.insert(name)?;
    Ok(())
}

/// Whether the name begins with the prefix.
fn begins_with(name: &str, prefix: &str) -> bool
    ensures { result ≡ starts_with nat_eq name.now prefix.now }
{
    name.as_bytes().starts_with(prefix.as_bytes())
}

/// Adds a name, if it begins with the prefix.
fn add_match(
    alloc: Global,
    names: &mut BTreeSet<String>,
    name: &str,
    prefix: &str,
) -> Result<(), AllocError>
    ensures { OnOk result (map string_bytes names.new.keys
        ≡ with_match prefix.now (map string_bytes names.old.keys) name.now) }
{
    if begins_with(name, prefix) {
        add(names, String::from_str(alloc, name)?)?;
    }
    Ok(())
}

/// Adds the declared names that begin with the prefix.
fn add_declared<L: Ledger>(
    alloc: Global,
    names: &mut BTreeSet<String>,
    world: &View<'_, L>,
    prefix: &str,
) -> Result<(), AllocError>
    ensures { OnOk result (map string_bytes names.new.keys
        ≡ with_matches prefix.now (map string_bytes names.old.keys) (names_of world.now.store)) }
{
    for i in 0..world.len() {
        let (name, _) = world.entry(i);
        add_match(alloc, names, name, prefix)?;
    }
    Ok(())
}

/// Adds the procedures that begin with the prefix.
fn add_procedures(
    alloc: Global,
    names: &mut BTreeSet<String>,
    procedures: &[&Procedure],
    prefix: &str,
) -> Result<(), AllocError>
    ensures { OnOk result (map string_bytes names.new.keys
        ≡ with_matches prefix.now (map string_bytes names.old.keys) (procedure_names (in_a_row procedures.now))) }
{
    for i in 0..procedures.len() {
        let procedure = procedures[i];
        add_match(alloc, names, procedure.name.text.as_str(), prefix)?;
    }
    Ok(())
}

/// Adds those of the keywords that begin with the prefix.
fn add_keywords(
    alloc: Global,
    names: &mut BTreeSet<String>,
    keywords: &[Keyword],
    prefix: &str,
) -> Result<(), AllocError>
    ensures { OnOk result (map string_bytes names.new.keys
        ≡ with_matches prefix.now (map string_bytes names.old.keys) (map keyword_text keywords.now)) }
{
    for keyword in keywords {
        add_match(alloc, names, keyword.text(), prefix)?;
    }
    Ok(())
}

/// The names of a set, in order.
fn in_order(alloc: Global, names: BTreeSet<String>) -> Result<Vec<String>, AllocError>
    ensures items { IfOk result (λ v. v.items ≡ names.keys) }
    ensures ordered { IfOk result (λ v. IsStrictlySortedBy string_cmp v.items) }
{
    names.into_iter().collect(alloc)
}

/// The declared names, the procedures and the keywords that begin with the prefix, each once, in the order of their octets.
pub(crate) fn matches_of<L: Ledger>(
    alloc: Global,
    world: &View<'_, L>,
    procedures: &[&Procedure],
    prefix: &str,
) -> Result<Vec<String>, AllocError>
    ensures { IfOk result
        (λ v. AreMatches (record { store = world.now.store; procedures = in_a_row procedures.now }) prefix.now (map string_bytes v.items)) }
{
    let mut names = BTreeSet::new(alloc);
    add_declared(alloc, &mut names, world, prefix)?;
    add_procedures(alloc, &mut names, procedures, prefix)?;
    add_keywords(alloc, &mut names, &KEYWORDS, prefix)?;
    in_order(alloc, names)
}
