// The examples of RFC 4954, RFC 5034 and RFC 4405, document 01's cases, and near misses of each rule: rows with ";" between them. The first octet of a
// row is its kind, and its text stands after that and a space.
// f the number of a profile, v of a verdict; b lines where no exchange runs, for both profiles, with "|" between them.
// In any other row s or p is the profile, and then: l such lines; r responses; e an index, and a line with each octet there;
// n how many octets, and how the line begins that letters follow; m how many octets of a MAIL line; a how many letters of a response;
// h a line far over every limit.
use crate::octet_counts::with_each;
use crate::{long, number_cases, readings};
use profile::Profile;
use profile::numbers::Verdict;
use std::io;
use textvectors::words::{index, number, octet, rest};

// Each line, or each response, of a list with "|" between them. Two loops: a row passed in would be a closure over the runtime, and no shorter.
fn lines(rt: &impl Print, p: Profile, list: &[u8]) -> io::Result<()> {
    for line in list.split(|x| *x == b'|') {
        readings::line(rt, p, line)?;
    }
    Ok(())
}

fn responses(rt: &impl Print, p: Profile, list: &[u8]) -> io::Result<()> {
    for text in list.split(|x| *x == b'|') {
        readings::response(rt, p, text)?;
    }
    Ok(())
}

fn both(rt: &impl Print, list: &[u8]) -> io::Result<()> {
    lines(rt, Profile::Smtp, list)?;
    lines(rt, Profile::Pop3, list)
}

fn profile(text: &[u8]) -> Profile {
    match text {
        [b'p', ..] => Profile::Pop3,
        _ => Profile::Smtp,
    }
}

fn on_profile(rt: &impl Print, kind: u8, p: Profile, text: &[u8]) -> io::Result<()> {
    let n = index(text, 1);
    match kind {
        b'l' => lines(rt, p, rest(text, 1)),
        b'r' => responses(rt, p, rest(text, 1)),
        b'e' => with_each(rt, p, rest(text, 2), n),
        b'n' => long::line(rt, p, rest(text, 2), n),
        b'm' => long::mail(rt, p, n),
        b'a' => long::response(rt, p, n),
        b'h' => long::huge(rt, p),
        _ => println!(rt; "not done"),
    }
}

fn case(rt: &impl Print, row: &[u8]) -> io::Result<()> {
    let kind = octet(row, 0);
    let text = octets::part(row, 2, row.len());
    match kind {
        b'f' => number_cases::row::<Profile>(rt, "profile", number(text, 0)),
        b'v' => number_cases::row::<Verdict>(rt, "verdict", number(text, 0)),
        b'b' => both(rt, text),
        _ => on_profile(rt, kind, profile(text), text),
    }
}

fn each(rt: &impl Print, list: &[u8]) -> io::Result<()> {
    for row in list.split(|x| *x == b';') {
        case(rt, row)?;
    }
    Ok(())
}

pub(crate) fn numbers(rt: &impl Print) -> io::Result<()> {
    each(
        rt,
        b"f 0;f 1;f 2;f 256;f 18446744073709551615;v 0;v 1;v 2;v 3;v 4;v 5;v 6;v 256;v 18446744073709551615",
    )
}

// Verbs, lines with octets that are forbidden, AUTH, and lines of so many octets.
pub(crate) fn commands(rt: &impl Print) -> io::Result<()> {
    each(
        rt,
        b"b EHLO client.example.com|ehlo a|EHLO|EHLO |EHLO  |HELO a|Helo a|HELO|HELO |RSET|rset|RSET |RSET x|QUIT|Quit|QUIT |QUIT x|STARTTLS|CAPA|;\
        b  EHLO a|EHL|EHLOX a|EHLO\ta|RSET\t|AUTH\tPLAIN|MAILX FROM:<a>|USER anna|user|PASS x|pass|APOP a b|apop|USERS|USER\t;\
        b NOOP\x00|NOOP\r|NOOP\n|NOOP\x0c|NOOP\xff|EHLO a\r|AUTH PLAIN\x00|USER a\n|MAIL FROM:<\n>|\x00;\
        e s 4 NOOP ;e p 4 USER ;\
        b AUTH PLAIN dGVzdAB0ZXN0ADEyMzQ=|AUTH PLAIN|AUTH CRAM-MD5|AUTH EXTERNAL =|AUTH PLAIN dGVzdAB0ZXN0AHRlc3Q=|AUTH DIGEST-MD5|AUTH PLAIN Zm9v|\
        auth X_Y-9 Zg==|AUTH ABCDEFGHIJKLMNOPQRST|AUTH 0;\
        b AUTH|AUTH |AUTH  PLAIN|AUTH PLAIN |AUTH PLAIN  Zm9v|AUTH PLAIN Zm9v |AUTH PLAIN Zm9v x|AUTH PLAIN ==|AUTH PLAIN =A|AUTH PLAIN *|AUTH PLAIN Zh==|\
        AUTH PLAIN Zm9|AUTH NOSUCH !!;\
        b AUTH plain|AUTH pLaIn Zg==|AUTH PLAIn =|auth cram-md5|AUTH Cram-Md5 Zm9v|auth x_y-9 =|AUTH nosuch|AUTH azAZ|AUTH abcdefghijklmnopqrst;\
        b AUTH plain.|AUTH pl@in|AUTH pl[in|AUTH pl`in|AUTH pl{in|AUTH pl\xc1in|AUTH pl\xe1in|AUTH \x80lain|AUTH plai\xff|\
        AUTH plain |AUTH plain !|AUTH nosuch !!|AUTH abcdefghijklmnopqrstu|AUTH abcdefghijklmnopqrstu Zm9v;\
        b AUTH PL.AIN|AUTH PLAIN\t|AUTH =|AUTH ABCDEFGHIJKLMNOPQRSTU|AUTH ABCDEFGHIJKLMNOPQRSTU Zm9v|AUTHX PLAIN|AUTHPLAIN;\
        e s 9 AUTH PLAIN;e p 5 AUTH plain;e s 12 AUTH cram-md5;e p 14 AUTH PLAIN Zm9v;\
        n s 507 AUTH PLAIN ;n s 511 AUTH PLAIN ;n s 510 NOOP ;n s 511 NOOP ;\
        n s 511 MAILX ;n p 251 AUTH PLAIN ;n p 255 AUTH PLAIN ;n p 253 NOOP ;n p 254 NOOP ;n p 254 MAIL FROM:<",
    )
}

// Paths, parameters, identities, and lines of so many octets.
pub(crate) fn mails(rt: &impl Print) -> io::Result<()> {
    each(
        rt,
        b"l s MAIL FROM:<e=mc2@example.com> AUTH=e+3Dmc2@example.com|MAIL FROM:<john+@example.org> AUTH=<>|\
        MAIL FROM:<alice@example.com> SUBMITTER=alice@example.com|MAIL FROM:<alice@example.com> SUBMITTER=bob@almamater.edu.example;\
        l s MAIL FROM:<alice@example.com> SUBMITTER=alice@mobile.net.example|MAIL FROM:<alice@example.com> SUBMITTER=guest.services@email.hotel.com.example|\
        MAIL FROM:<> SUBMITTER=mailer-daemon@almamater.edu.example;\
        l s MAIL FROM:<>|mail from:<a>|MAIL FROM:<a b> X|MAIL FROM:<<a>|MAIL FROM:<\xff\t\">|MAIL FROM:<a>b>|MAIL FROM:<a|MAIL FROM:a>|MAIL FROM:|\
        MAIL FROM: <a>|MAIL  FROM:<a>|MAIL FROM <a>|MAIL|MAIL |MAIL TO:<a>;\
        e s 11 MAIL FROM:<a>;\
        l s MAIL FROM:<a> SIZE=10 BODY=8BITMIME|MAIL FROM:<a> X|MAIL FROM:<a> X X|MAIL FROM:<a> 8-X-=+3d|MAIL FROM:<a>  X|MAIL FROM:<a> X |MAIL FROM:<a> |\
        MAIL FROM:<a>X|MAIL FROM:<a>\tX|MAIL FROM:<a> X  Y;\
        l s MAIL FROM:<a> X=|MAIL FROM:<a> =X|MAIL FROM:<a> -X|MAIL FROM:<a> X_Y|MAIL FROM:<a> X=a=b|MAIL FROM:<a> X==|MAIL FROM:<a> X=\x7f|\
        MAIL FROM:<a> X=\x80|MAIL FROM:<a> X=\t;\
        e s 14 MAIL FROM:<a> X;e s 15 MAIL FROM:<a> XX;e s 16 MAIL FROM:<a> X=y;\
        l s MAIL FROM:<a> auth=a@b|MAIL FROM:<a> Auth=+3C+3E|MAIL FROM:<a> AUTH=+61+40+62 X|MAIL FROM:<a> Y SUBMITTER=a@b AUTH=c@d|MAIL FROM:<a> AUTH=@@@|\
        MAIL FROM:<a> AUTH=a@@|MAIL FROM:<a> AUTH=@@a|MAIL FROM:<a> AUTH=a@b@c|MAIL FROM:<a> AUTH=a@+0D+0A|MAIL FROM:<a> AUTHX=a AUTH-;\
        e s 20 MAIL FROM:<a> AUTH=x@y;\
        l s MAIL FROM:<a> AUTH|MAIL FROM:<a> AUTH=|MAIL FROM:<a> AUTH=a|MAIL FROM:<a> AUTH=@|MAIL FROM:<a> AUTH=@@|MAIL FROM:<a> AUTH=@a|\
        MAIL FROM:<a> AUTH=a@|MAIL FROM:<a> AUTH=<>x|MAIL FROM:<a> AUTH=<|MAIL FROM:<a> AUTH=a+40+|MAIL FROM:<a> AUTH=a@b+3d;\
        l s MAIL FROM:<a> AUTH=a@b AUTH=a@b|MAIL FROM:<a> AUTH=<> auth=<>|MAIL FROM:<a> SUBMITTER=a@b X submitter=a@b|MAIL FROM:<a> SUBMITTER|\
        MAIL FROM:<a> SUBMITTER=<>|MAIL FROM:<a> SUBMITTER=a|MAIL FROM:<a> AUTH=a@b SUBMITTER=+40a;\
        m s 510;m s 1010;m s 1011;m p 253;m p 254",
    )
}

// Responses in an exchange.
pub(crate) fn answers(rt: &impl Print) -> io::Result<()> {
    each(
        rt,
        b"r s dGVzdAB0ZXN0ADEyMzQ=|cmpzMyBlYzNhNTlmZWQzOTVhYmExZWM2MzY3YzRmNGI0MWFjMA==||QUIT|RSET|AUTH|Zm9v|Zg==;\
        r p dGVzdAB0ZXN0AHRlc3Q=||QUIT|*|=;\
        r s *|**|* | *|=|Zh==|=AAA|Zm9v Zm9v|AUTH PLAIN|EHLO a|MAIL FROM:<>|Zm9v\x00|Zm9v\r|Zm9\n;\
        a s 12284;a s 12286;a s 12287;a p 12284;a p 12286;a p 12287;h s;h p",
    )
}
