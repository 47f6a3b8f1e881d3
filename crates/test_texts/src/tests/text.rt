use fare_codes::City;
use fare_text::{
    push_code, push_decimal, push_hundredths, push_labelled, push_number, push_short_number,
    short_text,
};
use std::alloc::Global;
use std::test::Fail;

/// A text of a label, a code, a number and two amounts.
fn text_in_pieces(alloc: Global) -> Result<Vec<u8>, Fail> {
    let city = City::read(b"LON").ok_or("a city")?;
    let mut text = Vec::new(alloc);
    push_labelled(&mut text, b"EDITION ", 7)?;
    push_code(&mut text, &city.text())?;
    push_number(&mut text, 40)?;
    push_hundredths(&mut text, 40_005)?;
    push_decimal(&mut text, 159_999_999_839_984_000, 2)?;
    Ok(text)
}

#[test]
fn each_piece_stands_behind_the_one_before(rt: HostRuntime) -> Result<(), Fail> {
    let text = text_in_pieces(rt.alloc())?;
    assert!(rt; text.as_slice() == b"EDITION 7LON40400.051599999998399840.00".as_slice());
    Ok(())
}

#[test]
fn a_short_text_has_its_number_behind_its_words(rt: HostRuntime) {
    let mut text = short_text("Repeat ");
    push_short_number(&mut text, 4_294_967_295);
    assert!(rt; text.as_str() == "Repeat 4294967295");
}
