// RFC 4648 section 10, the examples of RFC 4954 and RFC 5034, and document 01's cases of base64 and xtext: rows with ";" between them. The first octet
// of a row is its kind, and its text stands after that and a space: numbers, and then octets.
// v a vector as RFC 4648 section 10 writes it; r texts that are read, with "|" between them; d how many octets are lent to decode the text into;
// u the same, of base64 whose form is not looked at; e how many are lent to encode the octets into, and from which index on;
// p from where and up to where a line is read;
// t a text of four octets, with each other octet at each place; a all 256 octets, encoded into so many; l a text of so many letters.
use crate::form::Named;
use crate::rows;
use crate::show::{Decoded, Measured, Quoted};
use crate::words::{index, octet, rest};
use base64text::Base64;
use octets::reader::{decode_part, measure_part};
use std::io;
use xtext::Xtext;

fn vector(rt: &impl Print, bytes: &[u8]) -> io::Result<()> {
    print!(rt; "BASE64({}) = ", Quoted(bytes))?;
    rows::text_of::<Base64>(rt, bytes)?;
    println!(rt)
}

fn letters(rt: &impl Print, n: usize) -> io::Result<()> {
    let text = [b'A'; 12288];
    let mut out = [0u8; 9216];
    let measured = measure_part::<Base64>(&text, 0, n);
    let decoded = decode_part::<Base64>(&text, 0, n, &mut out);
    println!(rt; "{n} letters: {}, {}", Measured(measured), Decoded(decoded))
}

fn case<F: Named>(rt: &impl Print, row: &[u8]) -> io::Result<()> {
    let text = octets::part(row, 2, row.len());
    let n = index(text, 0);
    match octet(row, 0) {
        b'v' => vector(rt, text),
        b'r' => rows::read_each::<F>(rt, text),
        b'd' => rows::decode_into::<F>(rt, rest(text, 1), n),
        b'u' => rows::decode_unchecked_into(rt, rest(text, 1), n),
        b'e' => rows::encode_into::<F>(rt, rest(text, 2), n, index(text, 1)),
        b'p' => rows::read_part::<F>(rt, rest(text, 2), n, index(text, 1)),
        b't' => rows::taken::<F>(rt, text),
        b'a' => rows::all_octets::<F>(rt, n),
        b'l' => letters(rt, n),
        _ => println!(rt; "not done"),
    }
}

fn each<F: Named>(rt: &impl Print, list: &[u8]) -> io::Result<()> {
    for row in list.split(|x| *x == b';') {
        case::<F>(rt, row)?;
    }
    Ok(())
}

// Not base64: unused bits, "=" elsewhere than at the end, another length, another octet.
fn base64(rt: &impl Print) -> io::Result<()> {
    each::<Base64>(
        rt,
        b"v ;v f;v fo;v foo;v foob;v fooba;v foobar;\
        r |Zg==|Zm8=|Zm9v|Zm9vYg==|Zm9vYmE=|Zm9vYmFy|dGVzdAB0ZXN0ADEyMzQ=|\
        cmpzMyBlYzNhNTlmZWQzOTVhYmExZWM2MzY3YzRmNGI0MWFjMA==|dGVzdAB0ZXN0AHRlc3Q=|QUIT;\
        r Zh==|Zm9=|=AAA|=|====|A===|AA=A|AAA=BBB|AAA=BBBB|AA==AAAA|AAAAA|AAAAAA|Zm9|Zm9v |Zm9v\r\n|Zm\x009|Zm9-|Zm9_|Zm9\xff|*;\
        d 5 Zm9v;d 3 Zm9v;d 2 Zm9v;d 5 Zh==;d 0 ;\
        u 8 ;u 8 Zg==;u 8 Zm8=;u 8 Zm9v;u 8 Zm9vYg==;u 8 Zm9vYmE=;u 8 Zm9vYmFy;u 6 Zm9vYmFy;u 5 Zm9vYmFy;u 4 Zm9vYg==;u 3 Zm9vYg==;u 0 ;\
        u 8 Zh==;u 8 Zm9vZh==;u 8 Zm9=Zm9v;u 8 AA==AAAA;u 8 =AAA=AAA;u 8 AAAAA;u 8 Zm9vAAA;u 3 Zm9vAAA;u 2 Zm9vAAA;u 8 Zm9;u 8 ====;u 8 ========;\
        u 8 Zm\x009Zm9v;u 8 \xff\xff\xff\xffZm9v;\
        e 8 2 foo;e 8 4 foo;e 8 5 foo;e 4 0 f;e 4 4 ;e 4 5 ;e 4 18446744073709551615 foo;\
        p 11 15 AUTH PLAIN Zm9v;p 11 99 AUTH PLAIN Zm9v;p 10 15 AUTH PLAIN Zm9v;p 15 15 AUTH PLAIN Zm9v;p 15 11 AUTH PLAIN Zm9v;\
        p 99 18446744073709551615 AUTH PLAIN Zm9v;\
        t AAAA;a 344;l 12280;l 12284;l 12285;l 12286;l 12287",
    )
}

// Not xtext: small digits, what must be escaped, an escape cut short, no digits.
fn xtext(rt: &impl Print) -> io::Result<()> {
    each::<Xtext>(
        rt,
        b"r e+3Dmc2@example.com||<>|+3C+3E|+2B|+61|+3D+41+42|+00+0A+FF|!*,<>~;\
        r +3d|+3D+4a|e=mc2@example.com|a b|a\r\n|a\x00|a\x7f|a\xff|+|+3|a+|a+3|++3D|+G0|+0G|+0/|+:0|+@0;\
        d 5 a+3Db;d 3 a+3Db;d 2 a+3Db;d 5 a+3db;d 0 ;\
        e 8 1 a=b;e 8 3 a=b;e 8 4 a=b;e 8 5 abc;e 8 6 abc;e 4 4 ;e 4 5 ;e 8 18446744073709551615 a=b;\
        p 35 54 MAIL FROM:<e=mc2@example.com> AUTH=e+3Dmc2@example.com;\
        p 35 18446744073709551615 MAIL FROM:<e=mc2@example.com> AUTH=e+3Dmc2@example.com;\
        p 34 54 MAIL FROM:<e=mc2@example.com> AUTH=e+3Dmc2@example.com;\
        p 54 54 MAIL FROM:<e=mc2@example.com> AUTH=e+3Dmc2@example.com;\
        p 54 35 MAIL FROM:<e=mc2@example.com> AUTH=e+3Dmc2@example.com;\
        t +00A;a 584",
    )
}

pub(crate) fn run(rt: &impl Print) -> io::Result<()> {
    base64(rt)?;
    xtext(rt)
}
