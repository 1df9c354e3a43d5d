// Laws of the definitions, each as the contract of a call.
ghost use Rattle.render.specs.Stocked.{StockConstantLaw};

/// The law of the stock shader `constant`: in each accepted scene, over files of which none has the shader's name, each point of a leaf under it
/// without a volume has the opacity times the colour that its primitive gives there, and that opacity put into 0 to 1, whatever displaces it and
/// whatever lights there are (RenderMan Interface 3.2, section 11).
pub fn stock_constant_law()
    ensures { StockConstantLaw }
{}
