// What no program calls: `Entries::none`, `lone` and `read`, `surface::read` and book's `Record::made`.
use crate::entries::Entries;
use crate::surface;
use book::record::Record;
use numbers::refusal::Refusal;
use optics::microfacet::{Kind, Spectra};
use std::test::Fail;
use text::line::Line;

#[test]
fn spreads_entries(rt: HostRuntime) -> Result<(), Fail> {
    assert_eq!(rt; Entries::none().spectrum().values.len(), 0);
    let mut lone = Entries::lone(2.5);
    assert_eq!(rt; lone.spectrum().values, [2.5].as_slice());
    lone.spread(3);
    assert_eq!(rt; lone.spectrum().values, [2.5, 2.5, 2.5].as_slice());
    let mut past = Entries::lone(2.5);
    past.spread(473);
    assert_eq!(rt;
        past.spectrum().values.len(),
        0,
        "more than there is room for"
    );

    let mut line = Line::new(b"4004000000000000 3ff0000000000000 k");
    let mut read = Entries::read(&mut line).ok().ok_or("entries")?;
    read.spread(3);
    assert_eq!(rt; read.spectrum().values, [2.5, 1.0].as_slice());
    Ok(())
}

#[test]
fn reads_a_surface(rt: HostRuntime) -> Result<(), Fail> {
    let mut line = Line::new(
        b"7 glass two-sided 3fe0000000000000 eta 3ff8000000000000 k 0000000000000000",
    );
    let (i, made) = surface::read(&mut line).ok().ok_or("a line")?;
    let record = made.ok().ok_or("a surface")?;
    assert_eq!(rt; (i, record.kind(), record.entries), (7, Kind::Glass, 95));
    assert!(rt; record.is_two_sided());
    assert_eq!(rt;
        (record.given, record.eta[94], record.k[94], record.outer[94]),
        (0.5, 1.5, 0.0, 1.0)
    );

    let mut rough = Line::new(b"0 metal 4000000000000000 eta 3ff0000000000000 k 3ff0000000000000");
    let (_, refused) = surface::read(&mut rough).ok().ok_or("a line")?;
    assert_eq!(rt; refused.err(), Some(Refusal::Roughness));
    let mut past = Line::new(b"64 metal");
    assert!(rt; surface::read(&mut past).is_err());
    Ok(())
}

#[test]
fn makes_a_record(rt: HostRuntime) -> Result<(), Fail> {
    let spectra = Spectra::new(&[1.5; 95], &[0.25; 95], &[]);
    let record = Record::made(Kind::Metal, true, 0.5, &spectra)
        .ok()
        .ok_or("a surface")?;
    assert_eq!(rt; (record.kind(), record.entries), (Kind::Metal, 95));
    assert!(rt; record.is_two_sided());
    assert_eq!(rt;
        (record.given, record.eta[94], record.k[94], record.outer[94]),
        (0.5, 1.5, 0.25, 0.0)
    );
    assert_eq!(rt;
        (record.eta[95], record.k[95], record.outer[95]),
        (0.0, 0.0, 0.0)
    );
    let refused = Record::made(Kind::Metal, true, 2.0, &spectra);
    assert_eq!(rt; refused.err(), Some(Refusal::Roughness));
    Ok(())
}
