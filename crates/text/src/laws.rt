// What holds of every hex text.
ghost use Rattle.text.specs.HexLaws.{Accepted, Kept, ReadBack};

// Just the texts of an even number of hex digits are decoded.
#[tactic(auto, using(crate::proofs::HexTexts::accepted))]
pub fn even_hex_is_accepted()
    ensures { Accepted }
{}

// Decoding loses nothing but the case of the digits.
#[tactic(auto, using(crate::proofs::HexTexts::kept))]
pub fn digits_are_kept()
    ensures { Kept }
{}

// Encoded bytes are decoded to the same bytes.
#[tactic(auto, using(crate::proofs::HexTexts::read_back))]
pub fn bytes_are_read_back()
    ensures { ReadBack }
{}
