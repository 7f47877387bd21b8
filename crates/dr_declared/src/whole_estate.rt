//! Reading the bytes of an estate as a whole.

ghost use Rattle.std.specs.Prelude.{◌≡◌, ◌≢◌, ℕ, List, IfOk, IfErr, Ok, Err};
ghost use Rattle.dr_inventory.specs.Sound.{IsSoundEstate};
ghost use Rattle.dr_inventory.specs.Estates.{IsEstateText};
ghost use Rattle.dr_declared.specs.declared.contents.Declared.{Declared as AnyDeclared};
ghost use Rattle.dr_declared.specs.declared.contents.DeclaredFault.{DeclaredFault as AnyFault};
ghost use Rattle.dr_declared.specs.declared.contents.DeclaredFault.TheVariants.{NoMemory};
ghost use Rattle.dr_declared.specs.Contents.{Declares};
ghost use Rattle.dr_declared.specs.Faults.{IsFirstFaultOf, IsReading, estate_fault, protection_fault};

use crate::contents::{Declared, DeclaredFault, ReadError};
use crate::protection::{read_members, read_plans};
use dr_base::{EstateFault, Rows};
use dr_inventory::{Estate, read_estate};
use std::alloc::Global;

// Why bytes are no estate.
fn estate_fault(fault: EstateFault) -> DeclaredFault
    ensures { result ≡ estate_fault fault }
{
    match fault {
        EstateFault::NoMemory => DeclaredFault::NoMemory,
        fault => DeclaredFault::Estate(fault),
    }
}

// Why the protection of an estate wasn't read.
fn protection_fault(estate: Estate, error: ReadError) -> DeclaredFault
    ensures { result ≡ protection_fault estate error }
{
    match error {
        ReadError::Memory => DeclaredFault::NoMemory,
        ReadError::Fault(fault) => DeclaredFault::Protection(estate, fault),
    }
}

// What any text of this estate declares.
fn declared_of(alloc: Global, estate: Estate) -> Result<Declared, DeclaredFault>
    requires { IsSoundEstate estate }
    ensures { (bytes : List ℕ) → IsEstateText bytes estate → result ≢ Err NoMemory → IsReading bytes result }
{
    let members = match read_members(alloc, &estate) {
        Ok(members) => members,
        Err(error) => return Err(protection_fault(estate, error)),
    };
    match read_plans(alloc, &estate, &members) {
        Ok(plans) => Ok(Declared {
            estate,
            members,
            plans: Rows::new(plans),
        }),
        Err(error) => Err(protection_fault(estate, error)),
    }
}

/// What the bytes of an estate declare; or the first of all that is wrong with them: with the estate
/// by its own rules, with its protection groups, with its plans in their order, or a map that a machine
/// of a protection group lacks. `NoMemory` may come at any time.
pub fn read_declared(alloc: Global, bytes: &[u8]) -> Result<Declared, DeclaredFault>
    ensures declared { IfOk result (Declares bytes.now) }
    ensures fault { IfErr result (λ found. found ≢ NoMemory → IsFirstFaultOf bytes.now found) }

    // The other way: what is so is told, unless memory runs out.
    ensures reads { (declared : AnyDeclared) → Declares bytes.now declared → result ≢ Err NoMemory → result ≡ Ok declared }
    ensures tells { (found : AnyFault) → IsFirstFaultOf bytes.now found → result ≢ Err NoMemory → result ≡ Err found }
{
    match read_estate(alloc, bytes) {
        Ok(estate) => declared_of(alloc, estate),
        Err(fault) => Err(estate_fault(fault)),
    }
}
