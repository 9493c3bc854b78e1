//! The lines of faults.

ghost use Rattle.std.specs.Prelude.{◌≡◌, ◌++◌, IfOk, codes, string_bytes};
ghost use Rattle.std.specs.Fmt.{decimal, signed_decimal};
ghost use Rattle.toml_walk.specs.declared.fault.PlanFault.TheVariants.{At};
ghost use Rattle.topology.specs.Lines.{fault_line};

use ide_types::{Bytes, OutOfMemory};
use std::alloc::{AllocError, Global};
use toml_walk::{KeyFault, PlanFault};

// `topology`, a word and a key.
fn key_line(alloc: Global, word: &str, key: &Bytes) -> Result<Vec<u8>, AllocError>
    ensures { IfOk result (λ v. v.items ≡ word.now ++ key.now) }
{
    let mut line = word.as_bytes().to_vec(alloc)?;
    line.extend_from_slice(key.as_slice())?;
    Ok(line)
}

fn range_line(alloc: Global, key: &Bytes, value: i64) -> Result<Vec<u8>, AllocError>
    ensures { IfOk result (λ v. v.items ≡ codes "topology range " ++ key.now ++ codes " " ++ signed_decimal value) }
{
    let mut line = key_line(alloc, "topology range ", key)?;
    line.extend_from_slice(format!(in alloc; " {value}")?.as_bytes())?;
    Ok(line)
}

fn repeated_line(alloc: Global, key: &Bytes, i: usize, j: usize) -> Result<Vec<u8>, AllocError>
    ensures { IfOk result (λ v. v.items
        ≡ codes "topology repeated " ++ key.now ++ codes " " ++ decimal i ++ codes " " ++ decimal j) }
{
    let mut line = key_line(alloc, "topology repeated ", key)?;
    line.extend_from_slice(format!(in alloc; " {i} {j}")?.as_bytes())?;
    Ok(line)
}

fn key_fault_line(alloc: Global, key: &Bytes, fault: KeyFault) -> Result<Vec<u8>, AllocError>
    ensures { IfOk result (λ v. v.items ≡ fault_line (At key.now fault)) }
{
    match fault {
        KeyFault::Missing => key_line(alloc, "topology missing ", key),
        KeyFault::Kind => key_line(alloc, "topology kind ", key),
        KeyFault::Range(value) => range_line(alloc, key, value),
        KeyFault::Repeated(i, j) => repeated_line(alloc, key, i, j),
        KeyFault::Unknown => key_line(alloc, "topology unknown ", key),
        KeyFault::Limit => key_line(alloc, "topology limit ", key),
    }
}

/// The line of a fault, without a line feed (this profile).
pub fn fault_line(alloc: Global, fault: &PlanFault) -> Result<Bytes, OutOfMemory>
    ensures { IfOk result (λ line. line ≡ fault_line fault.now) }
{
    let line = match fault {
        PlanFault::NotToml => b"topology nottoml".to_vec(alloc)?,
        PlanFault::At { path, fault } => key_fault_line(alloc, path, *fault)?,
    };
    Ok(Bytes::new(line))
}
