// The dialogues.
use crate::run::dialogue;
use profile::Profile;
use std::io;

fn on_smtp(rt: &impl Print, events: &[u8]) -> io::Result<()> {
    dialogue(rt, Profile::Smtp, true, events)
}

fn on_pop3(rt: &impl Print, events: &[u8]) -> io::Result<()> {
    dialogue(rt, Profile::Pop3, true, events)
}

// Document 01's example, RFC 4954's, and commands around a transaction.
pub(crate) fn commands(rt: &impl Print) -> io::Result<()> {
    on_smtp(
        rt,
        b">EHLO a.example|>AUTH PLAIN Zm9v|sanna|>AUTH PLAIN Zm9v|sanna",
    )?;
    on_smtp(
        rt,
        b">EHLO client.example.com|>AUTH PLAIN dGVzdAB0ZXN0ADEyMzQ=|stest|>MAIL FROM:<e=mc2@example.com> AUTH=e+3Dmc2@example.com|e|>MAIL FROM:<john+@example.org> AUTH=<>|e",
    )?;
    on_smtp(
        rt,
        b">EHLO client.example.com|>AUTH CRAM-MD5|c<1896.697170952@postoffice.reston.mci.net>|>dGltIGI5MTNhNjAyYzdlZGE3YTQ5NWI0ZTZlNzMzNGQzODkw|stim",
    )?;
    on_smtp(
        rt,
        b">MAIL FROM:<a>|>EHLO a|>MAIL FROM:<a> AUTH=a@b|>MAIL FROM:<a>|>MAIL x|>AUTH PLAIN|>RSET|>MAIL x|>MAIL FROM:<a>|>QUIT|>QUIT x|>HELO|>HELO a|>AUTH PLAIN|>RSET x|>NOOP|>STARTTLS|>|e|>EHLO",
    )?;
    on_smtp(
        rt,
        b">AUTH PLAIN\x00|>EHLO a|>MAIL FROM:<a>|>MAIL FROM:<\x00>|>AUTH|>RSET x|>EHLO|>EHLO |>NOOP\x0a|>rset|>mail from:<b>|>quit|e",
    )?;
    on_smtp(
        rt,
        b"#510 NOOP |#511 NOOP |#510 EHLO |#511 EHLO |#510 AUTH PLAIN |#511 AUTH PLAIN |#507 AUTH PLAIN |#12287 AAAA|r|#1010 MAIL FROM:<|#1011 MAIL FROM:<|>MAIL FROM:<a>|#1010 MAIL FROM:<|#1011 MAIL FROM:<|#511 RSET",
    )
}

// Every check of AUTH in its order.
pub(crate) fn checks(rt: &impl Print) -> io::Result<()> {
    on_smtp(
        rt,
        b">AUTH|>AUTH PLAIN Zm9v|>EHLO a|>AUTH|>AUTH PLAIN |>AUTH PLAIN.|>AUTH NOSUCH !!|>AUTH NOSUCH Zm9v|>AUTH NOSUCH|>AUTH CRAM-MD5 Zh==|>AUTH CRAM-MD5 Zm9v|>AUTH CRAM-MD5 =|>AUTH PLAIN\x00|>USER a",
    )?;
    dialogue(
        rt,
        Profile::Smtp,
        false,
        b">EHLO a|>AUTH PLAIN|>AUTH PLAIN Zm9v|>AUTH SERVER-TLS Zm9v|>AUTH SERVER-TLS|>AUTH CRAM-MD5 Zm9v|>AUTH CLIENT-ANY|>Zm9v|w|>AUTH CLIENT-ANY =|r|>AUTH CRAM-MD5|c|>Zm9v|sanna",
    )?;
    on_smtp(
        rt,
        b">EHLO a|>AUTH SERVER-TLS Zm9v|>AUTH SERVER-TLS|t|>AUTH CLIENT-ANY Zg==|>NOOP|r",
    )?;
    on_smtp(
        rt,
        b"m|>EHLO a|>AUTH|>AUTH NOSUCH|>AUTH CRAM-MD5 =|>AUTH PLAIN|>!|>AUTH PLAIN|>Zm9v|>*|>AUTH PLAIN Zm9v|>AUTH CRAM-MD5|>MAIL FROM:<a>",
    )?;
    on_smtp(rt, b">EHLO a|M|>AUTH PLAIN Zm9v|m|>NOOP|r|>AUTH PLAIN Zm9v")
}

// Mechanisms in letters of either case.
pub(crate) fn spellings(rt: &impl Print) -> io::Result<()> {
    on_smtp(
        rt,
        b">AUTH plain|>EHLO a|>AUTH plain.|>AUTH pl{in|>AUTH nosuch|>AUTH nosuch !!|>AUTH cram-md5 Zm9v|>AUTH Cram-MD5|c|>AUTH plain",
    )?;
    on_smtp(
        rt,
        b">EHLO a|>AUTH plain|>*|>AUTH pLaIn Zm9v|sanna|>AUTH plain",
    )?;
    on_pop3(
        rt,
        b">AUTH plain.|>auth nosuch =|>AUTH CRAM-md5 =|>AUTH PLAIn|>Zm9v|r|>auth plain =|sanna",
    )?;
    dialogue(
        rt,
        Profile::Pop3,
        false,
        b">AUTH plain|>AUTH plain Zm9v|>AUTH server-tls|>AUTH client-any|>|sanna",
    )
}

// How an exchange goes on and ends.
pub(crate) fn exchanges(rt: &impl Print) -> io::Result<()> {
    on_smtp(
        rt,
        b">EHLO a|>AUTH PLAIN|>QUIT|r|>AUTH PLAIN|>*|>AUTH PLAIN|>=|>AUTH PLAIN|>|t|>AUTH PLAIN|>EHLO a|>AUTH PLAIN|>Zm9v\x00|>AUTH PLAIN =|p|>AUTH CRAM-MD5|w|>AUTH CRAM-MD5|>NOOP|c|>*|sanna",
    )?;
    on_smtp(
        rt,
        b">EHLO a|>AUTH PLAIN|sanna|>HELO a|>AUTH PLAIN|>MAIL FROM:<a>|>AUTH PLAIN|>AUTH PLAIN|>NOOP|>AUTH PLAIN|>Zm9v|w|>AUTH PLAIN|>Zm9v|p",
    )?;
    on_smtp(
        rt,
        b">EHLO a|>AUTH PLAIN|#12284 A|#12287 A|r|>AUTH PLAIN|#12286 A|>AUTH PLAIN|#12287 A|>AUTH PLAIN|#12287 *",
    )?;
    on_smtp(
        rt,
        b">EHLO a|>AUTH PLAIN|>|c|>|c|>|c|>|c|>|c|>|c|>|c|>|c|>|c|>|c|>|c|>|c|>|c|>|c|>|c16|>|c17|>AUTH PLAIN Zg==|c1",
    )?;
    on_smtp(
        rt,
        b">EHLO a|>AUTH CRAM-MD5|c|>|c|>|c|>|c|>|c|>|c|>|c|>|c|>|c|>|c|>|c|>|c|>|c|>|c|>|c|>|c16|>|C9211|c17",
    )
}

// Verdicts, their tickets and their data.
pub(crate) fn verdicts(rt: &impl Print) -> io::Result<()> {
    on_smtp(
        rt,
        b">EHLO a|>AUTH PLAIN Zm9v|oanna|s|sa b|sanna\x00|rx|wx|sanna|>MAIL FROM:<a>|e|>MAIL FROM:<a> AUTH=c@d|>RSET|>EHLO b|>HELO b|>AUTH PLAIN",
    )?;
    on_smtp(
        rt,
        b">EHLO a|>AUTH PLAIN Zm9v|c|>Zm9v|banna|r|>AUTH PLAIN Zg==|banna|sbert",
    )?;
    on_smtp(
        rt,
        b">EHLO a|>MAIL FROM:<a> AUTH=x|>AUTH CRAM-MD5|tx|px|s\x7f|s\x80|oa b|s!|>AUTH|>MAIL x|>MAIL FROM:<a> SUBMITTER=<>|>MAIL FROM:<a> SUBMITTER=b@c|>QUIT|>RSET|>MAIL FROM:<a> AUTH=+3C+3E",
    )?;
    on_smtp(
        rt,
        b">EHLO a|>AUTH PLAIN Zm9v|s1234567890123456789012345678901234567890123456789012345678901234~|s123456789012345678901234567890123456789012345678901234567890123~",
    )?;
    on_smtp(rt, b">EHLO a|>AUTH CRAM-MD5|C9211|C9210|>Zm9v|C100|>*")
}

pub(crate) fn pop3(rt: &impl Print) -> io::Result<()> {
    on_pop3(
        rt,
        b">CAPA|>USER a|>pass b|>APOP a b|>QUIT x|>MAIL FROM:<a>|>EHLO|>AUTH|>AUTH PLAIN dGVzdAB0ZXN0AHRlc3Q=|stest|>AUTH|>AUTH PLAIN|>USER a|>RSET",
    )?;
    on_pop3(
        rt,
        b">AUTH PLAIN|>dGVzdAB0ZXN0AHRlc3Q=|r|>AUTH PLAIN|>*|>AUTH CRAM-MD5|cabc|>QUIT|t|>AUTH CRAM-MD5|p|>AUTH CRAM-MD5|w|>AUTH CRAM-MD5 =|>AUTH NOSUCH|>AUTH PLAIN\x0d",
    )?;
    on_pop3(
        rt,
        b">USER a\x00|>EHLO a|>AUTH PLAIN =|r|>AUTH PLAIN|>=|#253 AUTH PLAIN |#251 AUTH PLAIN |r|#254 NOOP |#254 USER |#254 MAIL FROM:<|>AUTH PLAIN|#12287 A|>AUTH PLAIN|#12284 A|C9210",
    )?;
    on_pop3(
        rt,
        b">AUTH CRAM-MD5|c|>|c|>|c|>|c|>|c|>|c|>|c|>|c|>|c|>|c|>|c|>|c|>|c|>|c|>|c|>|c16|>|c17",
    )?;
    dialogue(
        rt,
        Profile::Pop3,
        false,
        b">AUTH PLAIN|>AUTH CRAM-MD5|c|>|sanna|e",
    )
}

// Records that calls do not lead to.
pub(crate) fn unreached(rt: &impl Print) -> io::Result<()> {
    on_pop3(rt, b"g|n|>AUTH PLAIN Zm9v|e|n|sanna|>NOOP")?;
    on_pop3(rt, b"n|>RSET|>EHLO a|>HELO a")?;
    on_smtp(
        rt,
        b">EHLO a|>AUTH PLAIN|n|>|n|r|>AUTH PLAIN|e|>AUTH PLAIN|n|>*|>MAIL FROM:<a>|e",
    )?;
    on_smtp(rt, b">EHLO a|>AUTH PLAIN Zm9v|n|sanna")?;
    on_smtp(rt, b">EHLO a|>AUTH PLAIN|n|e|>Zm9v|r")
}
