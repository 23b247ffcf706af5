use crate::drawing::Drawing;
use crate::drawing::Part::{Decimal, Text};
use crate::layout::Layout;

const STYLE: &[u8] = b"<style>
text{font:12px 'DejaVu Sans',Verdana,Arial,sans-serif;fill:#111}
.from,.to,.bar{font-family:'DejaVu Sans Mono',Menlo,Consolas,monospace}
.from,.size{text-anchor:end}.type,.bar,.mark{text-anchor:middle}
.type,.bar{paint-order:stroke;stroke:#fff;stroke-width:3px;stroke-linejoin:round}
.title{font-size:16px;font-weight:bold}.head{font-weight:bold}.type{font-weight:bold}.bar{font-size:10px}
.mark{fill:#fff;font-size:15px;font-weight:bold}.refused{fill:#c00000;font-weight:bold}
rect.on,rect.off{stroke:#222}rect.off{fill-opacity:.25;stroke-dasharray:3 2}.rule{stroke:#c8c8c8}
</style>
";

// One pattern for each type, so that they differ without colours too.
const PATTERNS: &[u8] = b"<defs>
<pattern id='UC' width='7' height='7' patternUnits='userSpaceOnUse'><rect width='7' height='7' fill='#d6d6d6'/><path d='M0 7L7 0' stroke='#8f8f8f'/></pattern>
<pattern id='WC' width='8' height='8' patternUnits='userSpaceOnUse'><rect width='8' height='8' fill='#f7c27a'/><circle cx='4' cy='4' r='1.3' fill='#a35c00'/></pattern>
<pattern id='WT' width='6' height='6' patternUnits='userSpaceOnUse'><rect width='6' height='6' fill='#a5dab8'/><path d='M0 3H6' stroke='#2e7d4f'/></pattern>
<pattern id='WP' width='6' height='6' patternUnits='userSpaceOnUse'><rect width='6' height='6' fill='#f5ea96'/><path d='M3 0V6' stroke='#a89400'/></pattern>
<pattern id='WB' width='8' height='8' patternUnits='userSpaceOnUse'><rect width='8' height='8' fill='#a9d0f0'/></pattern>
<pattern id='undefined' width='8' height='8' patternUnits='userSpaceOnUse'><rect width='8' height='8' fill='#e8308c'/><path d='M0 0L8 8M0 8L8 0' stroke='#fff'/></pattern>
<pattern id='fixed' width='8' height='8' patternUnits='userSpaceOnUse'><rect width='8' height='8' fill='#fff'/></pattern>
<pattern id='differs' width='8' height='8' patternUnits='userSpaceOnUse'><rect width='8' height='8' fill='#c00000'/></pattern>
</defs>
";

/// The pattern and the name of each type, and those of the fixed ranges' bar, and the heads of the columns that each picture has.
pub(crate) const KEYS: &[u8] =
    b"<rect class='on' x='12' y='98' width='26' height='18' fill='url(#WB)'/>
<text class='key' x='46' y='112'>WB</text>
<rect class='on' x='102' y='98' width='26' height='18' fill='url(#UC)'/>
<text class='key' x='136' y='112'>UC</text>
<rect class='on' x='192' y='98' width='26' height='18' fill='url(#WC)'/>
<text class='key' x='226' y='112'>WC</text>
<rect class='on' x='282' y='98' width='26' height='18' fill='url(#WT)'/>
<text class='key' x='316' y='112'>WT</text>
<rect class='on' x='372' y='98' width='26' height='18' fill='url(#WP)'/>
<text class='key' x='406' y='112'>WP</text>
<rect class='on' x='462' y='98' width='26' height='18' fill='url(#undefined)'/>
<text class='key' x='496' y='112'>undefined</text>
<rect class='on' x='572' y='98' width='26' height='18' fill='url(#fixed)'/>
<text class='key' x='606' y='112'>fixed ranges</text>
<text class='head' x='12' y='140'>addresses</text>
<text class='head size' x='310' y='140'>size</text>
";

// Where a picture begins: above 0 if it has a caption.
fn origin(layout: &Layout) -> &'static [u8] {
    if layout.has_caption { b"-24" } else { b"0" }
}

fn ground(layout: &Layout) -> &'static [u8] {
    if layout.has_caption {
        b"<rect y='-24' width='100%' height='100%' fill='#fff'/>\n"
    } else {
        b"<rect width='100%' height='100%' fill='#fff'/>\n"
    }
}

/// Adds all that stands in front of the caption and the headline.
pub(crate) fn append_head(text: &mut Drawing, layout: &Layout) {
    let Layout { width, height, .. } = *layout;
    let head = [
        Decimal(b"<svg xmlns='http://www.w3.org/2000/svg' width='", width),
        Decimal(b"' height='", height),
        Text(b"' viewBox='0 "),
        Text(origin(layout)),
        Decimal(b" ", width),
        Decimal(b" ", height),
        Text(b"'>\n"),
        Text(STYLE),
        Text(PATTERNS),
        Text(ground(layout)),
    ];
    text.add_all(&head);
}
