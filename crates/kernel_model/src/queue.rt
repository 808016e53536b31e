// A set of names is a list in which no two are equal.
ghost use Rattle.std.specs.Prelude.{◌≡◌, false, OnOk, OnErr};
ghost use Rattle.kernel_model.specs.Names.{same, has, with_name, without_name, without_names, are_distinct, are_among};

use std::alloc::AllocError;
use token::Name;

fn same(a: &Name, b: &Name) -> bool
    ensures { result ≡ same a.now b.now }
{
    *a == *b
}

/// Whether a name is one of these.
pub fn has(name: &Name, names: &[Name]) -> bool
    ensures { result ≡ has name.now names.now }
{
    names.iter().any(|other| same(name, other))
}

/// Adds a name if it is not there. Only then does it need memory. An error changes nothing.
pub fn add(names: &mut Vec<Name>, name: Name) -> Result<(), AllocError>
    ensures added { OnOk result (names.new.items ≡ with_name name names.old.items) }
    ensures kept { OnErr result (names.new.items ≡ names.old.items) }
    ensures missing { OnErr result (has name names.old.items ≡ false) }
{
    if !has(&name, names.as_slice()) {
        names.push(name)?;
    }
    Ok(())
}

/// Removes a name if it is there.
pub fn remove(names: &mut Vec<Name>, name: &Name)
    ensures { names.new.items ≡ without_name name.now names.old.items }
{
    names.retain(|other| !same(name, other));
}

/// Removes these names.
pub fn remove_all(names: &mut Vec<Name>, taken: &[Name])
    ensures { names.new.items ≡ without_names taken.now names.old.items }
{
    names.retain(|other| !has(other, taken));
}

/// Whether no two names are equal.
pub fn are_distinct(names: &[Name]) -> bool
    ensures { result ≡ are_distinct names.now }
{
    match names {
        [] => true,
        [name, rest @ ..] => !has(name, rest) && are_distinct(rest),
    }
}

/// Whether all of these names are among those.
pub fn are_among(those: &[Name], these: &[Name]) -> bool
    ensures { result ≡ are_among those.now these.now }
{
    these.iter().all(|name| has(name, those))
}
