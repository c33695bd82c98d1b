//! Where a public symbol stands in the memory of an image.

ghost use Rattle.std.specs.Prelude.{◌≡◌, ◌<◌, ◌^◌, Ok, IfOk, IfErr, Err};
ghost use Rattle.pe_loader.specs.Loading.{section_of};
ghost use Rattle.image_show.specs.SymbolPlace.{public_place, symbol_place};

use link_base::{Fault, Name};
use pdb_msf::Msf;
use pdb_publics::{Public, find};
use pe_loader::Loaded;

/// The RVA of the public symbol of a name, as a number that may be above 32 bits.
pub(crate) fn symbol_rva<'a>(made: &Loaded, pdb: &[u8], symbol: Name<'a>) -> Result<u64, Fault<'a>>
    ensures place { result ≡ symbol_place (section_of made.now) pdb.now symbol.entry }
    ensures small { IfOk result (λ rva. rva < 2 ^ 33) }
{
    let msf = match Msf::open(pdb) {
        Ok(msf) => msf,
        Err(kind) => return Err(Fault::BadPdb { kind }),
    };
    match find(&msf, symbol.again()) {
        Ok(Some(public)) => public_rva(made, public, symbol),
        Ok(None) => Err(Fault::NoSymbol { name: symbol }),
        Err(kind) => Err(Fault::BadPdb { kind }),
    }
}

/// The RVA of a public symbol of this name: that of its section, and its offset.
fn public_rva<'a>(made: &Loaded, public: Public, symbol: Name<'a>) -> Result<u64, Fault<'a>>
    ensures place { result ≡ public_place symbol.entry (section_of made.now public.section) public.offset }
    ensures small { IfOk result (λ rva. rva < 2 ^ 33) }
{
    match made.section(u32::from(public.section)) {
        Some((rva, _)) => Ok(u64::from(rva) + u64::from(public.offset)),
        None => Err(Fault::NoSymbol { name: symbol }),
    }
}
