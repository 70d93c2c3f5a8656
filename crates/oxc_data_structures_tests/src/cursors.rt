ghost use Rattle.std.specs.Prelude.{◌≡◌, ◌≤◌, length, slice_set};

use oxc_data_structures::slice_iter::{SliceCursor, SliceCursorMut};

// What a cursor shows while it moves by one, by two and to the end.
type Moves = (usize, Option<u8>, Option<u8>, Option<u8>, Option<u8>, usize);

fn moves(slice: &[u8]) -> Moves
    requires { 3 ≤ length slice.now }
{
    let mut cursor = SliceCursor::new(slice);
    let len = cursor.len();
    let peeked = cursor.peek().copied();
    let first = cursor.next().copied();
    let second = cursor.peek_copy();
    cursor.advance(2);
    let fourth = cursor.rest().first().copied();
    cursor.advance_to_end();
    (len, peeked, first, second, fourth, cursor.len())
}

fn first_of(mut cursor: SliceCursor<'_, u8>) -> (Option<u8>, Option<u8>, Option<u8>) {
    let peeked = cursor.peek().copied();
    let copied = cursor.peek_copy();
    (peeked, copied, cursor.next().copied())
}

#[test]
fn a_cursor_moves_over_a_slice(rt: HostRuntime) {
    assert!(rt; moves(&[1, 2, 3, 4]) == (4, Some(1), Some(1), Some(2), Some(4), 0));
    assert!(rt; first_of(SliceCursor::new(&[])) == (None, None, None));
}

fn moves_and_writes(slice: &mut [u8]) -> Moves
    requires { 5 ≤ length slice.old }
{
    let mut cursor = SliceCursorMut::new(slice);
    let len = cursor.len();
    let first = cursor.peek().copied();
    if let Some(entry) = cursor.next() {
        *entry = 10;
    }
    let second = cursor.peek_copy();
    cursor.advance(1);
    let third = cursor.rest().first().copied();
    write_two(&mut cursor);
    let fourth = cursor.peek_copy();
    cursor.advance_to_end();
    (len, first, second, third, fourth, cursor.len())
}

// Writes the next entry, and the one after it through the slice that is left.
fn write_two(cursor: &mut SliceCursorMut<'_, u8>) {
    if let Some(entry) = cursor.as_mut_slice().get_mut(1) {
        *entry = 40;
    }
    if let Some(entry) = cursor.next() {
        *entry = 30;
    }
}

fn none_left(cursor: &mut SliceCursorMut<'_, u8>) -> bool {
    cursor.peek().is_none() && cursor.peek_copy().is_none() && cursor.next().is_none()
}

#[test]
fn a_mutable_cursor_writes_to_its_slice(rt: HostRuntime) {
    let mut entries = [1, 2, 3, 4, 5];
    let shown = moves_and_writes(&mut entries);
    assert!(rt; shown == (5, Some(1), Some(2), Some(3), Some(40), 0));
    assert!(rt; entries == [10, 2, 30, 40, 5]);
    assert!(rt; none_left(&mut SliceCursorMut::new(&mut [])));
}

// What a caller learns: writes through a cursor are writes to its slice.
fn set_first_and_third(slice: &mut [u8], first: u8, third: u8)
    requires { 3 ≤ length slice.old }
    ensures { slice.new ≡ slice_set (slice_set slice.old 0 first) 2 third }
{
    let mut cursor = SliceCursorMut::new(slice);
    let Some(entry) = cursor.next() else {
        return;
    };
    *entry = first;
    cursor.advance(1);
    let Some(entry) = cursor.next() else {
        return;
    };
    *entry = third;
}

#[test]
fn a_caller_knows_what_a_cursor_wrote(rt: HostRuntime) {
    let mut entries = [1, 2, 3, 4];
    set_first_and_third(&mut entries, 10, 30);
    assert_eq!(rt; entries, [10, 2, 30, 4]);
}
