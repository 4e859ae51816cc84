// The writer of a record, and of one axis's fields at any place.
#![tactic(auto)]

ghost use Rattle.std.specs.Prelude.{◌+◌, ◌≤◌, ◌≡◌, length};
ghost use Rattle.tagged.specs.Store.{Puts};
ghost use Rattle.record_axis.specs.AxisFields.{front_bytes, axis_bytes, axis_length};
ghost use Rattle.record.specs.Record.{SavedInto};

use axis::config::Setting;
use axis::kind::Kind;
use record::opening::OPENING;
use record::tags::END;
use record_axis::limits::is_within;
use record_axis::saved::Saved;
use record_axis::tags::{DEPTH, KIND, POSITION, TURN, WIDTH};
use refusal::Refusal;
use tagged::bytes::put_bytes;
use tagged::field::put_field;
use tagged::twos::bits_of;

// How many bytes the fields of an axis of a kind are.
pub fn axis_length(kind: u64) -> usize
    ensures { result ≡ axis_length kind }
{
    if Kind::is_counter(kind) { 19 } else { 26 }
}

// The kind and the position of an axis at at; answers where the next field begins.
#[tactic(auto, unfolding(record_axis::specs::AxisFields::front_bytes, tagged::specs::Field::field_bytes, tagged::specs::Bytes::bytes_of), using(tagged::proofs::StoreLaws::puts_then))]
fn put_front(buf: &mut [u8], at: usize, kind: u64, bits: u64) -> usize
    requires { at + 15 ≤ length buf.old }
    ensures { Puts (front_bytes kind bits) buf.old at buf.new result }
{
    let at = put_field(buf, at, KIND, 1, kind);
    put_field(buf, at, POSITION, 8, bits)
}

// The fields of an axis at at; answers where the next field begins.
pub fn put_axis(buf: &mut [u8], at: usize, saved: Saved) -> usize
    requires { at + axis_length saved.config.kind ≤ length buf.old }
    ensures { Puts (axis_bytes saved) buf.old at buf.new result }
{
    let setting = Setting::from(saved.config);
    let at = put_front(buf, at, setting.kind, bits_of(saved.position));
    if Kind::is_counter(setting.kind) {
        put_field(buf, at, WIDTH, 1, setting.width)
    } else {
        let at = put_field(buf, at, DEPTH, 1, setting.depth);
        put_field(buf, at, TURN, 4, setting.turn)
    }
}

// The record at the front of a buffer, or the buffer as it was.
pub fn save(buf: &mut [u8], saved: Saved) -> Result<usize, Refusal>
    ensures { SavedInto buf.old saved result buf.new }
{
    if !is_within(saved) {
        return Err(Refusal::Value);
    }
    if buf.len() < 8 + axis_length(u64::from(saved.config.kind)) {
        return Err(Refusal::Room);
    }
    let at = put_bytes(buf, 0, &OPENING);
    let at = put_axis(buf, at, saved);
    Ok(put_field(buf, at, END, 0, 0))
}
