// The stock shaders by name.
ghost use Rattle.std.specs.Prelude.{◌≡◌, map, option_map};
ghost use Rattle.stock.specs.Texts.{stock_texts, text_of};
ghost use Rattle.stock.specs.Entries.{plain};

use crate::entry::Entry;

// The text of that name in this table.
fn find(entries: &[Entry], name: &str) -> Option<&'static str>
    ensures { option_map (λ t. t.now) result ≡ text_of (map plain entries.now) name.now }
{
    for entry in entries {
        if entry.name.as_bytes() == name.as_bytes() {
            return Some(entry.text);
        }
    }
    None
}

/// The text of the stock shader of that name: `Some` exactly for the twelve names
/// (Shading Language, RenderMan Interface 3.2, section 11 and appendix A; the defaults are this renderer's own).
pub fn text(name: &str) -> Option<&'static str>
    ensures { option_map (λ t. t.now) result ≡ text_of stock_texts name.now }
{
    find(shaders(), name)
}

fn shaders() -> &'static [Entry]
    ensures { map plain result.now ≡ stock_texts }
{
    &[
        Entry {
            name: "constant",
            text: "surface constant() { Oi = Os; Ci = Os * Cs; }",
        },
        Entry {
            name: "matte",
            text: "surface matte(float Ka = 1; float Kd = 1;) { normal Nf = faceforward(normalize(N), I);\n  Oi = Os; Ci = Os * Cs * (Ka * ambient() + Kd * diffuse(Nf)); }",
        },
        Entry {
            name: "metal",
            text: "surface metal(float Ka = 1; float Ks = 1; float roughness = 0.1;) {\n  normal Nf = faceforward(normalize(N), I); Oi = Os;\n  Ci = Os * Cs * (Ka * ambient() + Ks * specular(Nf, -normalize(I), roughness)); }",
        },
        Entry {
            name: "shinymetal",
            text: "surface shinymetal(float Ka = 1; float Ks = 1; float roughness = 0.1; float Kr = 1; string texturename = \"\";) {\n  normal Nf = faceforward(normalize(N), I); Oi = Os;\n  Ci = Os * Cs * (Ka * ambient() + Ks * specular(Nf, -normalize(I), roughness)); }",
        },
        Entry {
            name: "plastic",
            text: "surface plastic(float Ka = 1; float Kd = 0.5; float Ks = 0.5; float roughness = 0.1; color specularcolor = 1;) {\n  normal Nf = faceforward(normalize(N), I); Oi = Os;\n  Ci = Os * (Cs * (Ka * ambient() + Kd * diffuse(Nf)) + specularcolor * Ks * specular(Nf, -normalize(I), roughness)); }",
        },
        Entry {
            name: "ambientlight",
            text: "light ambientlight(float intensity = 1; color lightcolor = 1;) { Cl = intensity * lightcolor; }",
        },
        Entry {
            name: "distantlight",
            text: "light distantlight(float intensity = 1; color lightcolor = 1; point from = point \"shader\" (0, 0, 0); point to = point \"shader\" (0, 0, 1);) {\n  solar(to - from, 0) Cl = intensity * lightcolor; }",
        },
        Entry {
            name: "pointlight",
            text: "light pointlight(float intensity = 1; color lightcolor = 1; point from = point \"shader\" (0, 0, 0);) {\n  illuminate(from) Cl = intensity * lightcolor / (L . L); }",
        },
        Entry {
            name: "spotlight",
            text: "light spotlight(float intensity = 1; color lightcolor = 1; point from = point \"shader\" (0, 0, 0); point to = point \"shader\" (0, 0, 1); float coneangle = radians(30); float conedeltaangle = radians(5); float beamdistribution = 2;) {\n  uniform vector A = normalize(to - from);\n  illuminate(from, A, coneangle) { float c = normalize(L) . A;\n    Cl = intensity * lightcolor * pow(c, beamdistribution) * smoothstep(cos(coneangle), cos(coneangle - conedeltaangle), c) / (L . L); } }",
        },
        Entry {
            name: "depthcue",
            text: "volume depthcue(float mindistance = 0; float maxdistance = 1; color background = 0;) {\n  float d = clamp((depth(P) - mindistance) / (maxdistance - mindistance), 0, 1);\n  Ci = mix(Ci, background, d); Oi = mix(Oi, color 1, d); }",
        },
        Entry {
            name: "fog",
            text: "volume fog(float distance = 1; color background = 0;) { float d = 1 - exp(-length(I) / distance);\n  Ci = mix(Ci, background, d); Oi = mix(Oi, color 1, d); }",
        },
        Entry {
            name: "bumpy",
            text: "displacement bumpy(float amplitude = 1; string texturename = \"\";) {\n  P += amplitude * noise(transform(\"shader\", P)) * normalize(N); N = calculatenormal(P); }",
        },
    ]
}
