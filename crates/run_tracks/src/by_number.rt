//! Lists by a number, which have 0 behind their end.

ghost use Rattle.std.specs.Prelude.{◌≡◌, ◌<◌, ◌^◌, OnErr, OnOk, slice_index};
ghost use Rattle.run_tracks.specs.ByNumber.{grown, lowered, raised, with_at};

use std::alloc::AllocError;

/// What stands at the place of a number.
pub fn value_at(list: &[u32], number: u32) -> u32
    ensures { result ≡ slice_index list.now number }
{
    list.get(number as usize).copied().unwrap_or(0)
}

/// Puts a value at the place of a number. For lack of memory nothing changes.
pub fn put_at(list: &mut Vec<u32>, number: u32, value: u32) -> Result<(), AllocError>
    ensures ok { OnOk result (list.new.items ≡ with_at list.old.items number value) }
    ensures err { OnErr result (list.new.items ≡ list.old.items) }
{
    let place = number as usize;
    grow(list, place)?;
    list[place] = value;
    Ok(())
}

/// Makes the list so long that this place is in it.
fn grow(list: &mut Vec<u32>, place: usize) -> Result<(), AllocError>
    requires { place < 2 ^ 32 }
    ensures ok { OnOk result (list.new.items ≡ grown list.old.items place) }
    ensures err { OnErr result (list.new.items ≡ list.old.items) }
{
    if place < list.len() {
        return Ok(());
    }
    list.resize(place + 1, 0)
}

/// One more stands at the place of a number. For lack of memory nothing changes.
pub fn raise(list: &mut Vec<u32>, number: u32) -> Result<(), AllocError>
    ensures ok { OnOk result (list.new.items ≡ raised list.old.items number) }
    ensures err { OnErr result (list.new.items ≡ list.old.items) }
{
    let count = value_at(list, number);
    put_at(list, number, count.saturating_add(1))
}

/// One less stands at the place of a number, if more than 0 did.
pub fn lower(list: &mut Vec<u32>, number: u32)
    ensures { list.new.items ≡ lowered list.old.items number }
{
    if let Some(count) = list.get_mut(number as usize) {
        *count = count.saturating_sub(1);
    }
}
