ghost use Rattle.std.specs.Prelude.{◌≡◌, ◌+◌, ◌++◌, ◌∷◌, [], ◌↔◌, bytes_eq, drop, length, IfErr, IfOk, IsTrue, MatchOption};
ghost use Rattle.std.specs.List.{flat_map, list_any};
ghost use Rattle.pq_model.specs.Install.{name_bytes};
ghost use Rattle.pq_install.specs.Front.{IsAtFront, NoneAtFront};
ghost use Rattle.pq_install.specs.Names.{AreReadNames, IsName};
ghost use Rattle.pq_install.specs.Units.{CountedFails, IsSection, ListFails, Tells, UnitFails};

use crate::fault::Fault;
use crate::read::front::count_at;
use pq_term::Name;
use std::alloc::Global;

// The name at the front, after one byte for its length.
fn name_at(bytes: &[u8]) -> Option<Name>
    ensures { MatchOption result (NoneAtFront IsName name_bytes bytes.now)
        (λ name. IsAtFront IsName name_bytes bytes.now name (drop (length name + 1) bytes.now)) }
{
    let Some((len, rest)) = bytes.split_first() else {
        return None;
    };
    let len = usize::from(*len);
    if rest.len() < len {
        return None;
    }
    let (text, _) = rest.split_at(len);
    Name::of(text)
}

// Whether the name is among others.
fn is_among(names: &[Name], name: &Name) -> bool
    ensures { result ≡ list_any (λ other. bytes_eq other name.now) names.now }
{
    for other in names {
        if other.bytes() == name.bytes() {
            return true;
        }
    }
    false
}

// The name at the front that may follow those before it.
fn next_name(before: &[Name], bytes: &[u8]) -> Result<Name, Fault>
    requires { AreReadNames before.now }
    ensures ok { IfOk result (λ name. IsAtFront (λ n. AreReadNames (before.now ++ n ∷ [])) name_bytes bytes.now name (drop (length name + 1) bytes.now)) }
    ensures err { IfErr result (Tells (UnitFails (λ n. AreReadNames (before.now ++ n ∷ [])) name_bytes bytes.now)) }
{
    let Some(name) = name_at(bytes) else {
        return Err(Fault::Damaged { left: bytes.len() });
    };
    if is_among(before, &name) {
        return Err(Fault::Damaged { left: bytes.len() });
    }
    Ok(name)
}

// This many names, each of which may follow those before it.
fn name_list(alloc: Global, count: u16, bytes: &[u8]) -> Result<(Vec<Name>, &[u8]), Fault>
    ensures length { IfOk result (λ r. length r.0.items ≡ count) }
    ensures ok { IfOk result (λ r. IsAtFront AreReadNames (flat_map name_bytes) bytes.now r.0.items r.1.now) }
    ensures err { IfErr result (Tells (ListFails AreReadNames name_bytes count bytes.now)) }
{
    let mut names = Vec::new(alloc);
    let mut rest = bytes;
    for _ in 0..count {
        let name = next_name(&names, rest)?;
        let (_, after) = rest.split_at(name.bytes().len() + 1);
        names.push(name)?;
        rest = after;
    }
    Ok((names, rest))
}

/// The names at the front: at most 256, after their count.
pub fn names_at(alloc: Global, bytes: &[u8]) -> Result<(Vec<Name>, &[u8]), Fault>
    ensures ok { IfOk result (λ r. IsSection 256 AreReadNames name_bytes bytes.now r.0.items r.1.now) }
    ensures err { IfErr result (Tells (CountedFails 256 AreReadNames name_bytes bytes.now)) }
{
    let (count, rest) = count_at(256, bytes)?;
    name_list(alloc, count, rest)
}
