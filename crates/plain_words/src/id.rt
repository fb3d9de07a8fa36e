ghost use Rattle.std.specs.Prelude.{◌≡◌, ℕ, ◌<◌, ◌^◌, ◌*◌, true, false, Some, length, slice_index, IfSome, IfNone};
ghost use Rattle.std.specs.List.{list_all};
ghost use Rattle.hex.specs.Hex.{encode_lower};
ghost use Rattle.plain_words.specs.Ids.{id_text, is_id, is_id_byte, shard_of};

use crate::limits::SHARDS;

/// The bytes of an id.
const ID_LENGTH: usize = 24;
/// The bytes of an id that show the incarnation; the others show the instant.
const INCARNATION_LENGTH: usize = 8;

/// The shard of an incarnation, 0 to 7.
pub fn shard_of(inc: u32) -> u8
    ensures { result ≡ shard_of inc }
{
    (inc % SHARDS as u32) as u8
}

/// The id of an occurrence: 8 lower-case hexadecimal digits of its incarnation, then 16 of its
/// instant.
pub fn print_id(inc: u32, instant: u64) -> [u8; 24]
    ensures { result ≡ id_text inc instant }
{
    let mut text = [0u8; ID_LENGTH];
    write_hex(&inc.to_be_bytes(), &mut text[..INCARNATION_LENGTH]);
    write_hex(&instant.to_be_bytes(), &mut text[INCARNATION_LENGTH..]);
    text
}

fn write_hex(bytes: &[u8], text: &mut [u8])
    requires { length text.old ≡ 2 * length bytes.now }
    ensures { text.new ≡ encode_lower bytes.now }
{
    let _ = hex::encode_to_slice(bytes, text);
}

/// The incarnation and the instant of an id; none where the bytes are not 24 lower-case hexadecimal
/// digits.
pub fn read_id(bytes: &[u8]) -> Option<(u32, u64)>
    ensures some { IfSome result (λ id. bytes.now ≡ id_text id.0 id.1) }
    ensures none { IfNone result (is_id bytes.now ≡ false) }
    ensures printed { (inc instant : ℕ) → inc < 2 ^ 32 → instant < 2 ^ 64 → bytes.now ≡ id_text inc instant → result ≡ Some (inc, instant) }
{
    if !is_id(bytes) {
        return None;
    }
    let mut inc = [0u8; 4];
    read_hex(&bytes[..INCARNATION_LENGTH], &mut inc);
    let mut instant = [0u8; 8];
    read_hex(&bytes[INCARNATION_LENGTH..], &mut instant);
    Some((u32::from_be_bytes(inc), u64::from_be_bytes(instant)))
}

fn is_id(bytes: &[u8]) -> bool
    ensures { result ≡ is_id bytes.now }
{
    bytes.len() == ID_LENGTH && has_id_bytes(bytes)
}

fn has_id_bytes(bytes: &[u8]) -> bool
    ensures { result ≡ list_all is_id_byte bytes.now }
{
    bytes.iter().all(|byte| is_id_byte(*byte))
}

fn is_id_byte(byte: u8) -> bool
    ensures { result ≡ is_id_byte byte }
{
    byte.is_ascii_digit() || (b'a'..=b'f').contains(&byte)
}

fn read_hex(text: &[u8], bytes: &mut [u8])
    requires digits { list_all is_id_byte text.now ≡ true }
    requires twice { length text.now ≡ 2 * length bytes.old }
    ensures text { encode_lower bytes.new ≡ text.now }
    ensures fits { (i : ℕ) → slice_index bytes.new i < 256 }
{
    let _ = hex::decode_to_slice(text, bytes);
}
