//! Laws over the definitions alone.
ghost use Rattle.std.specs.Prelude.{ℕ, Bool, List, ◌^◌, ◌<◌, ◌≤◌, length};
ghost use Rattle.std.specs.Int.{w32, w64, to_be_bytes};
ghost use Rattle.nfs_xdr.specs.Encoding.{IsNumber, IsBoolean, IsFixed, IsOpaque, IsArray, EncodesOnce, number_of, fixed_text, opaque_text};
ghost use Rattle.nfs_xdr.specs.Reading.{Finds, number_at, boolean_at, fixed_at, opaque_at, array_at};

/// Where two encodings of an item stand at the front of the same bytes, they are one and have one
/// value: no encoding of a value begins an encoding of another.
pub fn items_are_encoded_once()
    ensures unsigned { EncodesOnce (IsNumber w32) }
    ensures hyper { EncodesOnce (IsNumber w64) }
    ensures boolean { EncodesOnce IsBoolean }
    ensures fixed { (len : ℕ) → EncodesOnce (IsFixed len) }
    ensures opaque { (max : ℕ) → EncodesOnce (IsOpaque max) }
    ensures numbers { (max : ℕ) → EncodesOnce (IsArray (IsNumber w32) max) }
{}

/// The functions of `specs/Reading` find what is encoded, all of it and nothing else: so what the
/// readers give by them is what the bytes encode.
pub fn items_are_found()
    ensures unsigned { Finds (IsNumber w32) (number_at w32) }
    ensures hyper { Finds (IsNumber w64) (number_at w64) }
    ensures boolean { Finds IsBoolean boolean_at }
    ensures fixed { (len : ℕ) → Finds (IsFixed len) (fixed_at len) }
    ensures opaque { (max : ℕ) → Finds (IsOpaque max) (opaque_at max) }
    ensures numbers { (max : ℕ) → Finds (IsArray (IsNumber w32) max) (array_at (number_at w32) max) }
{}

/// What is written is an encoding, with zeros as its padding.
pub fn items_are_written()
    ensures boolean { (b : Bool) → IsBoolean b (to_be_bytes w32 (number_of b)) }
    ensures fixed { (item : List ℕ) → IsFixed (length item) item (fixed_text item) }
    ensures opaque { (max : ℕ) (item : List ℕ) → length item < 2 ^ 32 → length item ≤ max → IsOpaque max item (opaque_text item) }
{}
