// Tests of the stock's names.
use std::test::Fail;
use stock::text;

#[test]
fn each_name_has_its_shader(rt: HostRuntime) -> Result<(), Fail> {
    let table = [
        ("constant", "surface constant() {"),
        ("matte", "surface matte(float Ka = 1; float Kd = 1;) {"),
        (
            "metal",
            "surface metal(float Ka = 1; float Ks = 1; float roughness = 0.1;) {",
        ),
        (
            "shinymetal",
            "surface shinymetal(float Ka = 1; float Ks = 1; float roughness = 0.1; float Kr = 1; string texturename = \"\";) {",
        ),
        ("plastic", "surface plastic(float Ka = 1; float Kd = 0.5;"),
        (
            "ambientlight",
            "light ambientlight(float intensity = 1; color lightcolor = 1;) {",
        ),
        ("distantlight", "light distantlight(float intensity = 1;"),
        ("pointlight", "light pointlight(float intensity = 1;"),
        ("spotlight", "light spotlight(float intensity = 1;"),
        (
            "depthcue",
            "volume depthcue(float mindistance = 0; float maxdistance = 1;",
        ),
        (
            "fog",
            "volume fog(float distance = 1; color background = 0;) {",
        ),
        (
            "bumpy",
            "displacement bumpy(float amplitude = 1; string texturename = \"\";) {",
        ),
    ];
    for (name, start) in table {
        let Some(found) = text(name) else {
            return Err("a stock shader is missing".into());
        };
        assert!(rt; found.starts_with(start));
        assert!(rt; found.ends_with("}"));
    }
    assert_eq!(rt;
        text("constant"),
        Some("surface constant() { Oi = Os; Ci = Os * Cs; }")
    );
    Ok(())
}

#[test]
fn other_names_have_none(rt: HostRuntime) -> Result<(), Fail> {
    for name in [
        "",
        "Constant",
        "constan",
        "constants",
        "shiny metal",
        "paintedplastic",
    ] {
        assert_eq!(rt; text(name), None);
    }
    Ok(())
}
