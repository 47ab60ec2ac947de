//! The colours of a picture, light and dark, as CSS. Values are plain, since not all programs that draw SVG know
//! variables. What a colour tells is told by a word or a shape, too.

/// The classes of what is drawn.
pub const STYLE: &str = concat!(
    "text{font:12px Helvetica,Arial,\"Liberation Sans\",\"DejaVu Sans\",sans-serif;fill:#1c2430}\n",
    ".page{fill:#fff}.head{fill:#eaf0f8;stroke:#33527f}",
    ".outer{fill:#fff;stroke:#7d8896;stroke-dasharray:3 2}.name{font-weight:bold}",
    ".small{font-size:11px;fill:#566170}\n",
    ".line{stroke:#8e99a8}.dotted{stroke-dasharray:2 4}.bar{fill:#d7e2f2;stroke:#33527f;stroke-width:.8}\n",
    ".msg{stroke:#1d4f91;stroke-width:1.3;fill:none}.tip{fill:#1d4f91}",
    ".made{stroke:#1d4f91;stroke-width:1.3;stroke-dasharray:6 3;fill:none}\n",
    ".lost{stroke:#a3301f;stroke-width:1.3;stroke-dasharray:5 3;fill:none}.losttip{fill:#a3301f}",
    ".losttext{fill:#a3301f}.hole{fill:#fff;stroke:#a3301f;stroke-width:1.3}\n",
    ".state{fill:#fff7df;stroke:#8a6d1f}.timer{stroke:#67458c;stroke-width:1.2;fill:none}",
    ".timertip,.timertext{fill:#5b3d7d}\n",
    ".tick{stroke:#dde1e7}.time{font-weight:bold;fill:#566170}.end{stroke:#1c2430;fill:#1c2430}",
    ".cut{stroke:#1c2430;fill:#fff}.stop{stroke:#1c2430;stroke-width:2;fill:none}\n",
    ".halo{paint-order:stroke;stroke:#fff;stroke-width:5px;stroke-linejoin:round}\n",
    "@media (prefers-color-scheme:dark){\n",
    "text{fill:#e3e7ed}.page{fill:#14181f}.head{fill:#22304a;stroke:#7fa3d9}",
    ".outer{fill:#14181f;stroke:#8c96a5}.small,.time{fill:#a6b0be}\n",
    ".line{stroke:#667080}.bar{fill:#2b3d60;stroke:#7fa3d9}.msg,.made{stroke:#8ab4f0}.tip{fill:#8ab4f0}\n",
    ".lost{stroke:#f08a7c}.losttip,.losttext{fill:#f08a7c}.hole{fill:#14181f;stroke:#f08a7c}",
    ".state{fill:#3a3320;stroke:#d0b060}\n",
    ".timer{stroke:#c3a3e6}.timertip,.timertext{fill:#d0b6ee}.tick{stroke:#2b323d}",
    ".end{stroke:#e3e7ed;fill:#e3e7ed}.cut{stroke:#e3e7ed;fill:#14181f}.stop{stroke:#e3e7ed}",
    ".halo{stroke:#14181f}\n",
    "}",
);

/// The classes of the page round a picture: its heads stay at the top, and its times at the left edge. Heads are 44
/// pixels high, and have a line below.
pub const PAGE_STYLE: &str = concat!(
    "html,body{height:100%;margin:0}\n",
    "body{display:flex;flex-direction:column;background:#fff;color:#1c2430;",
    "font:14px Helvetica,Arial,\"Liberation Sans\",\"DejaVu Sans\",sans-serif}\n",
    "header{padding:8px 12px}h1{font-size:16px;margin:0}p{margin:4px 0}",
    "details{font-size:13px;max-width:60em}ul{margin:4px 0;padding-left:20px}\n",
    "footer{padding:5px 10px;font-size:12px;color:#566170;border-top:1px solid #b9c1cc}\n",
    ".box{flex:1;min-height:0;overflow:auto;border-top:1px solid #b9c1cc}",
    ".box:focus{outline:2px solid #1d4f91;outline-offset:-2px}\n",
    ".heads,.rows{display:flex;width:max-content;min-width:100%}svg{display:block;flex:none}\n",
    ".heads{position:sticky;top:0;z-index:2;background:#fff;border-bottom:1px solid #b9c1cc}\n",
    ".corner,.times{position:sticky;left:0;z-index:1;flex:none;box-sizing:border-box;background:#fff;",
    "border-right:1px solid #b9c1cc}\n",
    ".corner{padding:14px 0 0 10px;font-size:11px}.corner,.times b{color:#566170}\n",
    ".times div{box-sizing:border-box}.times div+div{border-top:1px solid #dde1e7}",
    ".times b{display:block;position:sticky;top:45px;padding:4px 0 3px 10px;font-size:12px;line-height:14px}\n",
    "@media (prefers-color-scheme:dark){\n",
    "body,.heads,.corner,.times{background:#14181f;color:#e3e7ed}.corner,.times b,footer{color:#a6b0be}\n",
    ".box,.heads,.corner,.times,footer{border-color:#3b4452}.times div+div{border-color:#2b323d}",
    ".box:focus{outline-color:#8ab4f0}\n",
    "}\n",
);

/// The tips of arrows.
pub const TIPS: &str = concat!(
    "<defs><marker id=\"a\" viewBox=\"0 0 8 8\" refX=\"8\" refY=\"4\" markerWidth=\"8\" markerHeight=\"8\" markerUnit",
    "s=\"userSpaceOnUse\" orient=\"auto\"><path class=\"tip\" d=\"M0 0.5 L8 4 L0 7.5z\"/></marker><marker id=\"b\" ",
    "viewBox=\"0 0 8 8\" refX=\"8\" refY=\"4\" markerWidth=\"8\" markerHeight=\"8\" markerUnits=\"userSpaceOnUse\" or",
    "ient=\"auto\"><path class=\"losttip\" d=\"M0 0.5 L8 4 L0 7.5z\"/></marker><marker id=\"c\" viewBox=\"0 0 8 8\"",
    " refX=\"8\" refY=\"4\" markerWidth=\"8\" markerHeight=\"8\" markerUnits=\"userSpaceOnUse\" orient=\"auto\"><path",
    " class=\"timertip\" d=\"M0 0.5 L8 4 L0 7.5z\"/></marker></defs>",
);
