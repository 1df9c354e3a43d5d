// Tokens and requests.
use fixed_math::Decimal;
use rib_lex::{Token, TokenKind, tokens};
use rib_reader::{Arg, Class, Kind, Param, Req, Request, Values, holding, last_named, requests};
use std::alloc::Global;
use std::test::Fail;

// A token as one line of text: its line, its kind and what it holds.
fn written(alloc: Global, token: &Token) -> Result<String, Fail> {
    let line = token.line;
    Ok(match &token.kind {
        TokenKind::Name(text) => format!(in alloc; "{line} name {}", text.as_str())?,
        TokenKind::Str(text) => format!(in alloc; "{line} string {}", text.as_str())?,
        TokenKind::Number(d) => format!(in alloc;
            "{line} number {} {} {}",
            d.negative, d.digits, d.exponent
        )?,
        TokenKind::Open => format!(in alloc; "{line} [")?,
        TokenKind::Close => format!(in alloc; "{line} ]")?,
    })
}

#[test]
fn every_kind_of_token(rt: HostRuntime) -> Result<(), Fail> {
    let text =
        b"##RenderMan \xff\xe9 RIB\r\nDisplay \"a\\\"b\\\\\" [-1.50e+3 .8]# \x00\x80\n_x9\t\"two\nlines\\\n\\n\\t\" 12345678901234567890.#\n1\"\"2[e5";
    let found = tokens(rt.alloc(), text)?;
    let wanted = [
        "2 name Display",
        "2 string a\"b\\",
        "2 [",
        "2 number true 150 1",
        "2 number false 8 -1",
        "2 ]",
        "3 name _x9",
        "3 string two\nlines\n\t",
        "5 number false 123456789012345678 2",
        "6 number false 1 0",
        "6 string ",
        "6 number false 2 0",
        "6 [",
        "6 name e5",
    ];
    assert_eq!(rt; found.len(), wanted.len());
    for (token, want) in found.iter().zip(wanted.iter()) {
        let text = written(rt.alloc(), token)?;
        assert_eq!(rt; text.as_str(), *want);
    }
    Ok(())
}

#[test]
fn values_of_numbers(rt: HostRuntime) -> Result<(), Fail> {
    let table: [(&[u8], i64, Option<i64>); 17] = [
        (b"1e38", 2147483647, None),
        (b".8", 52429, None),
        (b"-0.1", -6554, None),
        (b"-0", 0, Some(0)),
        (b"12.00", 786432, Some(12)),
        (b"-1200e-2", -786432, Some(-12)),
        (b"+2147483647", 2147483647, Some(2147483647)),
        (b"-2147483648", -2147483647, None),
        (b"32767.5", 2147450880, None),
        (b"7.62939453125e-6", 1, None),
        (b"-7.62939453125E-6", -1, None),
        (b"7.62939453124e-6", 0, None),
        (
            b"0000000000000000000000000000000000000000.5e1",
            327680,
            Some(5),
        ),
        (b"1234567890123456789012345678901234567890e-39", 80909, None),
        (
            b"1000000000000000000000000000000000000000e-39",
            65536,
            Some(1),
        ),
        (b"1e9999", 2147483647, None),
        (b"5e-99999999999999999999", 0, None),
    ];
    for (text, raw, whole) in table {
        let found = tokens(rt.alloc(), text)?;
        assert_eq!(rt; found.len(), 1);
        let TokenKind::Number(decimal) = &found[0].kind else {
            return Err("no number")?;
        };
        assert_eq!(rt; decimal.num().raw(), raw);
        assert_eq!(rt; decimal.whole(), whole);
    }
    Ok(())
}

#[test]
fn fields_of_any_size(rt: HostRuntime) {
    let table = [
        (u64::MAX, i32::MAX, 2147483647, None),
        (u64::MAX, i32::MIN, 0, None),
        (0, i32::MAX, 0, Some(0)),
        (10000000000000000000, -19, 65536, Some(1)),
        (18446744073709551615, -20, 12089, None),
    ];
    for (digits, exponent, raw, whole) in table {
        let decimal = Decimal {
            negative: false,
            digits,
            exponent,
        };
        assert_eq!(rt; decimal.num().raw(), raw);
        assert_eq!(rt; decimal.whole(), whole);
    }
}

// The requests of a short text without a fault.
fn requests_in(alloc: Global, text: &str) -> Result<Vec<Request>, Fail> {
    if text.len() > 10_000 {
        return Err("too long".into());
    }
    let tokens = tokens(alloc, text.as_bytes())?;
    Ok(requests(alloc, &tokens)?)
}

// Whether a variable has this class, this kind and these raws.
fn is_numbers(param: &Param, class: Class, kind: Kind, raws: &[i64]) -> bool {
    let Values::Numbers(numbers) = &param.values else {
        return false;
    };
    let mut same = numbers.len() == raws.len();
    for (number, raw) in numbers.as_slice().iter().zip(raws.iter()) {
        same = same && number.raw() == *raw;
    }
    same && param.class == class && param.kind == kind
}

#[test]
fn declarations_hold_from_there_on(rt: HostRuntime) -> Result<(), Fail> {
    let text = "Declare \"Kx\" \"float\"\nSurface \"plastic\" \"Kx\" [1]\n\
        Declare \"a b\" \"varying color\" Declare \"Kd\" \"vertex point\"\n\
        Surface \"m\" \"a b\" [1 .5 0] \"Kd\" [1 2 3] \"facevarying integer Kx\" 2 \"Kx\" 3";
    let read = requests_in(rt.alloc(), text)?;
    assert_eq!(rt; read.len(), 5);
    assert_eq!(rt; read[1].params.len(), 1);
    assert_eq!(rt; read[4].params.len(), 4);
    assert_eq!(rt; read[4].line, 4);
    let first = read[1].params.as_slice();
    let second = read[4].params.as_slice();
    assert_eq!(rt; first[0].name.as_str(), "Kx");
    assert!(rt; is_numbers(&first[0], Class::Uniform, Kind::Float, &[65_536]));
    assert_eq!(rt; second[0].name.as_str(), "a b");
    assert!(rt;
        is_numbers(
            &second[0],
            Class::Varying,
            Kind::Color,
            &[65_536, 32_768, 0]
        )
    );
    assert!(rt;
        is_numbers(
            &second[1],
            Class::Vertex,
            Kind::Point,
            &[65_536, 131_072, 196_608]
        )
    );
    assert_eq!(rt; second[2].name.as_str(), "Kx");
    assert!(rt; is_numbers(&second[2], Class::FaceVarying, Kind::Float, &[131_072]));
    assert!(rt; is_numbers(&second[3], Class::Uniform, Kind::Float, &[196_608]));
    Ok(())
}

#[test]
fn arguments_are_kept(rt: HostRuntime) -> Result<(), Fail> {
    let text =
        "Color 1 .5 0 Opacity [1 1 1] version 3.03 Attribute \"displacementbound\" \"float sphere\" [2]";
    let read = requests_in(rt.alloc(), text)?;
    assert_eq!(rt; read.len(), 4);
    assert_eq!(rt; read[0].args.len(), 1);
    assert_eq!(rt; read[1].args.len(), 1);
    for request in &read[..2] {
        match request.args.as_slice() {
            [Arg::Numbers(numbers)] => assert_eq!(rt; numbers.len(), 3),
            _ => assert!(rt; false, "not one array"),
        }
    }
    assert_eq!(rt; read[2].args.len(), 0);
    let bound = read[3].params.as_slice();
    assert_eq!(rt; bound.len(), 1);
    assert_eq!(rt; bound[0].name.as_str(), "sphere");
    assert!(rt; is_numbers(&bound[0], Class::Uniform, Kind::Float, &[131_072]));
    Ok(())
}

#[test]
fn rows_are_read(rt: HostRuntime) -> Result<(), Fail> {
    let text =
        "Format 640 480 1 ScreenWindow -1 1 -.75 .75 Display \"a.ppm\" \"file\" \"rgba\" Color 1 .5 0 \
        Quantize \"rgb\" 200 1 100 0 Quantize \"z\" 5 6 7 0 Patch \"bilinear\" \"P\" [1] \"P\" [2 3] Surface \"m\" \"Kd\" .5";
    let read = requests_in(rt.alloc(), text)?;
    let mut seen = Vec::new(rt.alloc());
    for request in &read {
        match request.name {
            Req::Format => {
                seen.push(request.whole(0))?;
                seen.push(request.whole(1))?;
                seen.push(request.number(2).raw())?;
            }
            Req::ScreenWindow => seen.push(request.number(3).raw())?,
            Req::Display => assert_eq!(rt; request.word(2).as_str(), "rgba"),
            Req::Color => {
                for decimal in request.array(0, 3) {
                    seen.push(decimal.num().raw())?;
                }
            }
            Req::Quantize => {
                if let Some(levels) = request.levels() {
                    seen.push(levels.one as i64)?;
                    seen.push(levels.least as i64)?;
                    seen.push(levels.most as i64)?;
                }
            }
            Req::Patch => {
                for number in request.points() {
                    seen.push(number.raw())?;
                }
            }
            Req::Surface => {
                for variable in request.variables() {
                    assert_eq!(rt; variable.name.as_str(), "Kd");
                }
            }
            _ => {}
        }
    }
    let wanted = [
        640, 480, 65_536, 49_152, 65_536, 32_768, 0, 200, 1, 100, 131_072, 196_608,
    ];
    assert_eq!(rt; seen.as_slice(), wanted.as_slice());
    Ok(())
}

// The later of two values of one name holds.
#[test]
fn later_values_hold(rt: HostRuntime) -> Result<(), Fail> {
    let text = "Surface \"m\" \"Kd\" .5 \"Ks\" 1 \"uniform float Kd\" 2 \"Ka\" 3 \"Ks\" 4";
    let read = requests_in(rt.alloc(), text)?;
    let [request] = read.as_slice() else {
        return Err("not one request".into());
    };
    let params = request.params.as_slice();
    let mut names = String::new(rt.alloc());
    for param in holding(rt.alloc(), params)? {
        names.push_str(param.name.as_str())?;
    }
    assert_eq!(rt; names.as_str(), "KdKaKs");
    for (name, raw) in [("Kd", 131_072), ("Ks", 262_144), ("Ka", 196_608)] {
        match last_named(params, name) {
            Some(param) => {
                assert!(rt;
                    is_numbers(param, Class::Uniform, Kind::Float, &[raw]),
                    "{name}"
                );
            }
            None => return Err("no such parameter".into()),
        }
    }
    assert!(rt; last_named(params, "Kr").is_none());
    Ok(())
}
