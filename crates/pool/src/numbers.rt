// A number of a lent list.
ghost use Rattle.std.specs.Prelude.{◌≡◌, get_or};

// The number at a place; 0 past the end, as the call that asks about the list is defined (`ask_all_call`).
pub fn number_at(list: &[u32], place: u32) -> u32
    ensures { result ≡ get_or list.now place 0 }
{
    list.get(place as usize).copied().unwrap_or(0)
}
