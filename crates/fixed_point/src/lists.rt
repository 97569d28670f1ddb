//! Lists by place: past the end they read as 0 or false, and a write there does nothing.

ghost use Rattle.std.specs.Prelude.{◌≡◌, pos, false, slice_index_or, slice_set};

/// The number at a place, and 0 past the end.
pub fn number_at(list: &[i64], place: usize) -> i64
    ensures { result ≡ slice_index_or list.now place (pos 0) }
{
    if place < list.len() { list[place] } else { 0 }
}

/// Replaces the number at a place, if there is one.
pub fn set_number(list: &mut [i64], place: usize, value: i64)
    ensures { list.new ≡ slice_set list.old place value }
{
    if place < list.len() {
        list[place] = value;
    }
}

/// The flag at a place, and false past the end.
pub fn flag_at(list: &[bool], place: usize) -> bool
    ensures { result ≡ slice_index_or list.now place false }
{
    if place < list.len() {
        list[place]
    } else {
        false
    }
}

/// Replaces the flag at a place, if there is one.
pub fn set_flag(list: &mut [bool], place: usize, flag: bool)
    ensures { list.new ≡ slice_set list.old place flag }
{
    if place < list.len() {
        list[place] = flag;
    }
}
